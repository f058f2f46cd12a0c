//! What was expected where a configuration has a fault.

use crate::place::Array;
use ilp_fields::{ConfigFault, Field};
use std::fmt;

/// A fault of a table that lies in this array, or of the top, as a person is told.
#[derive(Clone, Copy)]
pub(crate) struct Complaint {
    pub(crate) array: Option<Array>,
    pub(crate) fault: ConfigFault,
}

impl fmt::Display for Complaint {
    fn fmt<W: fmt::Write>(&self, f: &mut fmt::Formatter<W>) -> fmt::Result {
        match self.fault {
            ConfigFault::Missing { field } => {
                let expected = expected(self.array, field);
                let need = need(field);
                write!(f, "{field} is missing{need}; it is to be {expected}")
            }
            ConfigFault::BadValue { field } => {
                let expected = expected(self.array, field);
                write!(f, "{field} is to be {expected}")
            }
            fault => f.write_str(rule(self.array, fault)),
        }
    }
}

// Why a field is needed that may else be absent.
fn need(field: Field) -> &'static str {
    match field {
        Field::SettleTo | Field::Engine => ", which a threshold needs",
        Field::Threshold => ", which settle_after_ms needs",
        _ => "",
    }
}

// What a field is to hold.
fn expected(array: Option<Array>, field: Field) -> &'static str {
    match field {
        Field::Asset | Field::Peer => expected_reference(array, field),
        Field::Price => "an array of at most 4032 tables [[price]]",
        Field::Route => "an array of at most 4096 tables [[route]]",
        Field::Address => "an ILP address, such as test.hub",
        Field::Run => "a text of 1 to 32 letters, digits and -",
        Field::Listen | Field::EngineListen | Field::Host | Field::Engine => {
            "a text IP:PORT of 1 to 64 octets, such as 127.0.0.1:7768"
        }
        Field::Path | Field::OutPath => {
            "a text of at most 128 visible ASCII characters that begins with /"
        }
        Field::Code => "a text of 1 to 12 capital letters and digits",
        Field::From | Field::To => "a text CODE/SCALE, such as USD/2",
        Field::Name => "a text of 1 to 16 small letters, digits, _ and -",
        Field::Token | Field::OutToken => "a text of 1 to 128 visible ASCII characters",
        Field::Prefix => "an ILP address, a scheme or an empty text, and not of the scheme peer",
        Field::Sync => "the text group or off",
        number => expected_number(number),
    }
}

// What stands under the keys that name an array at the top, and one of its tables elsewhere.
fn expected_reference(array: Option<Array>, field: Field) -> &'static str {
    match (array, field) {
        (None, Field::Asset) => "an array of 1 to 64 tables [[asset]]",
        (None, _) => "an array of 1 to 256 tables [[peer]]",
        (Some(_), Field::Asset) => "a text CODE/SCALE, such as USD/2",
        (Some(_), _) => "the name of a peer that is given",
    }
}

// What a field of a number is to hold.
fn expected_number(field: Field) -> &'static str {
    match field {
        Field::Workers => "a whole number from 1 to 64",
        Field::Journal => "a whole number from 2 to 16777216",
        Field::InFlight => "a whole number from 1 to 65536",
        Field::NewPeriodAt => "a whole number from 1 to 95",
        Field::WindowMs => "a whole number from 0 to 3600000",
        Field::MaxHoldMs => "a whole number from 1 to 3600000",
        Field::SweepMs | Field::SettleMs => "a whole number from 1 to 60000",
        Field::Scale => "a whole number from 0 to 255",
        Field::P | Field::Q => "a whole number from 1 to 4294967295",
        Field::FeePpm => "a whole number from 0 to 1000000",
        Field::MaxPacket => "a whole number from 0 to 9223372036854775807",
        Field::SettleMax => "a whole number from 1 to 9223372036854775807",
        Field::SettleAfterMs => "a whole number from 0 to 604800000",
        _ => "a whole number",
    }
}

// The rule that is broken by more than one field.
fn rule(array: Option<Array>, fault: ConfigFault) -> &'static str {
    match fault {
        ConfigFault::DoubleAsset => "the same asset is given before",
        ConfigFault::NoSuchAsset => match array {
            Some(Array::Price) => "from and to are to be assets that are given",
            _ => "asset is to be an asset that is given",
        },
        ConfigFault::ZeroPrice => "p and q are to be above 0",
        ConfigFault::DoublePrice => {
            "from and to are to be two assets, for which no price in this order is given before"
        }
        ConfigFault::ScaleGap => "the scales of from and to are to differ by at most 9",
        ConfigFault::DoublePeer => "the same name is given before",
        ConfigFault::DoubleToken => "the same token is given before",
        ConfigFault::DoubleRoute => "the same prefix is given before",
        ConfigFault::BadLevels => {
            "it is to have least <= 0 and least <= settle_to < threshold, and settle_to and settle_max need a threshold"
        }
        ConfigFault::Memory => "memory was refused",
        _ => "it is not TOML",
    }
}
