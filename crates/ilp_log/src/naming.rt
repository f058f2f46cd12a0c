//! How a log is named in types.
use ilp_grown_list::ListNaming;
use std::marker::Brand;

/// Which log it is: the list of what it has told, and what its file is to have. Code that opens a log is
/// generic in it, and the call of that code picks it.
pub trait LogNaming: ListNaming {
    ghost use Rattle.ilp_log.specs.Lines.{LogForm};

    ghost form: { LogForm };
}

impl LogNaming for Brand {
    ghost use Rattle.ilp_log.specs.Lines.{no_form};

    ghost form = { no_form };
}
