//! What a report has behind the text of its book.

use ilp_desk::Naming;
use ilp_server::Side;
use ilp_shared::Shared;
use std::alloc::AllocError;
use std::sync::Wait;

/// What a report has behind its own text, of a connection at this side: whose payouts are paused, and how many Fulfills
/// were told late in this period, where any was. No report is asked for at the side of the peers.
pub(crate) fn report_lines<J: Naming, R: Wait>(
    shared: &Shared<'_, J, R>,
    side: Side,
) -> Result<Vec<u8>, AllocError> {
    let config = shared.desk.config();
    let alloc = config.allocator();
    let Side::Engine = side else {
        return Ok(Vec::new(alloc));
    };
    let mut lines = shared.payouts.lines(shared.rt, config)?;
    let late = shared.notices.fulfills_late();
    if late > 0 {
        let line = format!(in alloc; "{:<30}{late:>30}\n", "late")?;
        lines.extend_from_slice(line.as_bytes())?;
    }
    Ok(lines)
}
