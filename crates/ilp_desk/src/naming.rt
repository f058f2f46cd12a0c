//! How a desk is named in types.
use std::marker::Brand;
use std::sync::ledger::Ledger;

/// Which desk it is: a ledger of its own, the configuration, the number of workers, the period and the
/// journal that it is opened with, and the list that its entries are told to. Code that opens a desk is
/// generic in it, and the call of that code picks it; a share of another desk doesn't compile.
pub trait Naming: Ledger {
    ghost use Rattle.ilp_grown_list.specs.Seated.{TableId};
    ghost use Rattle.ilp_desk.specs.Desk.{PlainDesk};

    ghost desk: { PlainDesk };

    ghost list: { TableId };
}

impl Naming for Brand {
    ghost use Rattle.ilp_grown_list.specs.Grown.{no_table};
    ghost use Rattle.ilp_desk.specs.Desk.{no_desk};

    ghost desk = { no_desk };

    ghost list = { no_table };
}
