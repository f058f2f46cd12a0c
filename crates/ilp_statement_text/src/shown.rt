//! How the parts of a row are printed.

use crate::key::{OctetsText, Spaces};
use crate::row::Why;
use ilp_journal::Cause;
use std::fmt;
use std::fmt::Display;

/// What there is, and `-` where there is nothing.
#[derive(Clone, Copy)]
pub(crate) struct OrDash<T>(pub(crate) Option<T>);

impl<T: Display> Display for OrDash<T> {
    fn fmt<W: fmt::Write>(&self, f: &mut fmt::Formatter<W>) -> fmt::Result {
        match &self.0 {
            Some(shown) => write!(f, "{shown}"),
            None => f.write_str("-"),
        }
    }
}

/// A name, as it is printed: as a key is. A spreadsheet takes no octet of it for the beginning of a formula, and
/// nobody a peer that is named `-` for none.
pub(crate) fn name_text(name: &str) -> OctetsText<'_> {
    OctetsText {
        octets: name.as_bytes(),
        spaces: Spaces::Stand,
    }
}

/// Octets in hexadecimal.
#[derive(Clone, Copy)]
pub(crate) struct Hexadecimal<'o>(pub(crate) &'o [u8]);

impl Display for Hexadecimal<'_> {
    fn fmt<W: fmt::Write>(&self, f: &mut fmt::Formatter<W>) -> fmt::Result {
        for octet in self.0 {
            write!(f, "{octet:02x}")?;
        }
        Ok(())
    }
}

/// Why an entry was booked: the cause of a release as in the text of a journal, or a reason.
#[derive(Clone, Copy)]
pub(crate) struct WhyText<'b> {
    pub(crate) why: Why<'b>,
    pub(crate) spaces: Spaces,
}

impl Display for WhyText<'_> {
    fn fmt<W: fmt::Write>(&self, f: &mut fmt::Formatter<W>) -> fmt::Result {
        match self.why {
            Why::Cause(cause) => write!(f, "{}", CauseText(cause)),
            Why::Reason(octets) => {
                let spaces = self.spaces;
                write!(f, "{}", OctetsText { octets, spaces })
            }
        }
    }
}

// The cause of a release.
#[derive(Clone, Copy)]
struct CauseText(Cause);

impl Display for CauseText {
    fn fmt<W: fmt::Write>(&self, f: &mut fmt::Formatter<W>) -> fmt::Result {
        match &self.0 {
            Cause::Late => f.write_str("Late"),
            Cause::WrongPreimage => f.write_str("WrongPreimage"),
            Cause::NoReply => f.write_str("NoReply"),
            Cause::Restart => f.write_str("Restart"),
            Cause::Peer(code) => write!(f, "Peer {}", Hexadecimal(code)),
        }
    }
}
