//! Which fields are known where.
ghost use Rattle.std.specs.Prelude.{◌≡◌, Contains, IfNone, IfSome};
ghost use Rattle.ilp_fields.specs.Keys.{key};
ghost use Rattle.ilp_warnings.specs.Told.{known_in, top_fields, IsNoneOf};

use crate::warning::ConfigTable;
use ilp_accounts::Field;

/// The fields and arrays that are known in a table.
pub(crate) fn known_in(within: ConfigTable) -> &'static [Field]
    ensures { result.now ≡ known_in within }
{
    match within {
        ConfigTable::Top => &[
            Field::Address,
            Field::Run,
            Field::Listen,
            Field::EngineListen,
            Field::Path,
            Field::Workers,
            Field::Journal,
            Field::WindowMs,
            Field::MaxHoldMs,
            Field::SweepMs,
            Field::SettleMs,
            Field::Sync,
            Field::InFlight,
            Field::NewPeriodAt,
            Field::Asset,
            Field::Price,
            Field::Peer,
            Field::Route,
        ],
        ConfigTable::Asset(_) => &[Field::Code, Field::Scale],
        ConfigTable::Price(_) => &[Field::From, Field::To, Field::P, Field::Q],
        ConfigTable::Peer(_) => &[
            Field::Name,
            Field::Asset,
            Field::Token,
            Field::OutToken,
            Field::Host,
            Field::OutPath,
            Field::Least,
            Field::FeePpm,
            Field::MaxPacket,
            Field::Engine,
            Field::Threshold,
            Field::SettleTo,
            Field::SettleMax,
            Field::SettleAfterMs,
        ],
        ConfigTable::Route(_) => &[Field::Prefix, Field::Peer],
    }
}

/// The fields of the top that are no arrays.
pub(crate) fn top_fields() -> &'static [Field]
    ensures { result.now ≡ top_fields }
{
    &[
        Field::Address,
        Field::Run,
        Field::Listen,
        Field::EngineListen,
        Field::Path,
        Field::Workers,
        Field::Journal,
        Field::WindowMs,
        Field::MaxHoldMs,
        Field::SweepMs,
        Field::SettleMs,
        Field::Sync,
        Field::InFlight,
        Field::NewPeriodAt,
    ]
}

/// The one of these fields that has this key.
pub(crate) fn named(fields: &[Field], text: &str) -> Option<Field>
    ensures found { IfSome result (λ f. Contains fields.now f × (key f ≡ text.now)) }
    ensures none { IfNone result (IsNoneOf fields.now text.now) }
{
    for field in fields {
        if field.key() == text {
            return Some(*field);
        }
    }
    None
}
