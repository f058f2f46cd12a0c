//! The octets of a configuration, from any reader.
ghost use Rattle.std.specs.Prelude.{◌≡◌, ◌≢◌, ◌⊎◌, ◌≤◌, ◌+◌, length, vec_len, Err, IfOk, OnOk, IfErr, OnErr, IfSome, IsErrOf};
ghost use Rattle.ilp_io.specs.Counts.{TalliesUpTo};
ghost use Rattle.ilp_io.specs.Reading.{IsReadWhole, ConsumesUpTo};
ghost use Rattle.ilp_config_file.specs.ConfigReading.{most_config, IsBeyond};

use ilp_io::{ReadFault, Source, read_to_limit};
use ilp_refusals::Refusal;
use std::alloc::Allocator;

/// The most octets of a configuration.
pub const CONFIG_LIMIT: usize = 1_048_576;

/// Reads all octets of a configuration, which are at most `CONFIG_LIMIT`, in at most 1,048,577
/// reads.
///
/// Refusals: `ConfigUnread` where a read failed or there are more octets, `Memory` where the list
/// that is answered was denied its growth. The octets that were read by then are lost.
pub fn read_config<S: Source, A: Allocator + Copy>(
    alloc: A,
    reader: &mut S,
) -> Result<Vec<u8, A>, Refusal>
    ensures whole { IfOk result (λ octets.
        IsReadWhole (S.remaining reader.old) (S.remaining reader.new) octets.items) }
    ensures within { IfOk result (λ octets. vec_len octets ≤ most_config) }
    ensures part { OnErr result
        (ConsumesUpTo (S.remaining reader.old) (S.remaining reader.new) (most_config + 1)) }

    // A configuration is unread only where a read failed, or where there were more octets. A read
    // that failed gives nothing else, and more octets never give Ok.
    ensures unread { IsErrOf result Refusal.ConfigUnread
        → TalliesUpTo (S.tally reader.old) (S.tally reader.new) (most_config + 1) 1
        ⊎ IsBeyond most_config (S.tally reader.old) (S.tally reader.new)
        (S.remaining reader.old) (S.remaining reader.new) }
    ensures unfailed { result ≢ Err Refusal.ConfigUnread
        → TalliesUpTo (S.tally reader.old) (S.tally reader.new) (most_config + 1) 0 }
    ensures short { OnOk result
        (IfSome (S.remaining reader.old) (λ octets. length octets ≤ most_config)) }
    ensures refused { IfErr result (λ refusal.
        (refusal ≡ Refusal.ConfigUnread) ⊎ (refusal ≡ Refusal.Memory)) }
{
    match read_to_limit(alloc, reader, CONFIG_LIMIT) {
        Ok(octets) => Ok(octets),
        Err(ReadFault::Failed) => Err(Refusal::ConfigUnread),
        Err(ReadFault::TooLong) => Err(Refusal::ConfigUnread),
        Err(ReadFault::Memory) => Err(Refusal::Memory),
    }
}
