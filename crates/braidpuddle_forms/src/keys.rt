// A key's own functions, the key as the bytes of exactly one key form.
ghost use Rattle.std.specs.Prelude.{◌≡◌};
ghost use Rattle.key.specs.Key.{reversed_key, forgotten, key_name, version_of};
ghost use Rattle.key.specs.Shard.{shard_of};
ghost use Rattle.braidpuddle_forms.specs.Forms.{wrote_as};
ghost use Rattle.braidpuddle_forms.specs.Keys.{of_key, version_number, key_written};
ghost use Rattle.state.specs.SlotTest.{whole_key};

use crate::report::report;
use key::form::write_key;
use state::slot::whole_key;

// Which of `shards` workers the key's flow belongs to; 2^64 − 1 where the bytes are no key form.
pub fn braidpuddle_shard(key: &[u8], shards: u64) -> u64
    ensures { result ≡ of_key (whole_key key.now) (λ k. shard_of k shards) }
{
    let Some(named) = whole_key(key) else {
        return 0xffff_ffff_ffff_ffff;
    };
    named.shard(shards)
}

// The number of the protocol's name, 0 for none; 2^64 − 1 where the bytes are no key form.
pub fn braidpuddle_protocol_name(key: &[u8]) -> u64
    ensures { result ≡ of_key (whole_key key.now) key_name }
{
    let Some(named) = whole_key(key) else {
        return 0xffff_ffff_ffff_ffff;
    };
    named.protocol_name() as u64
}

// 4 or 6, or 0 for traffic that is not IP; 2^64 − 1 where the bytes are no key form.
pub fn braidpuddle_ip_version(key: &[u8]) -> u64
    ensures { result ≡ of_key (whole_key key.now) (λ k. version_number (version_of k)) }
{
    let Some(named) = whole_key(key) else {
        return 0xffff_ffff_ffff_ffff;
    };
    match named.ip_version() {
        None => 0,
        Some(number) => number as u64,
    }
}

// The form of the same flow's key seen from the other direction, at the front of `out`.
pub fn braidpuddle_reversed(key: &[u8], out: &mut [u8], written: &mut u64) -> u64
    ensures { ((result, written.new), out.new) ≡ wrote_as (key_written (whole_key key.now) reversed_key out.old) written.old }
{
    let Some(named) = whole_key(key) else {
        return 4;
    };
    report(write_key(out, named.reversed()), written)
}

// The form of the key with both MACs zero, at the front of `out`.
pub fn braidpuddle_forget_link_addresses(key: &[u8], out: &mut [u8], written: &mut u64) -> u64
    ensures { ((result, written.new), out.new) ≡ wrote_as (key_written (whole_key key.now) forgotten out.old) written.old }
{
    let Some(named) = whole_key(key) else {
        return 4;
    };
    report(write_key(out, named.forget_link_addresses()), written)
}
