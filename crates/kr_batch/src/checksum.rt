//! CRC-32C, sixteen bytes a step.

ghost use Rattle.std.specs.Prelude.{◌≡◌, ◌+◌, ◌*◌, ◌<◌, ◌≤◌, length, slice_index};
ghost use Rattle.std.specs.List.{fold};
ghost use Rattle.kr_batch.specs.Crc;
ghost use Rattle.kr_batch.specs.Crc.{bit_steps, byte_step};

use crate::table::TABLE;

/// The CRC-32C of the bytes.
#[tactic(auto, unfolding(crate::specs::Crc::crc32c))]
pub fn crc32c(bytes: &[u8]) -> u32
    ensures { result ≡ Crc.crc32c bytes.now }
{
    after_all(u32::MAX, bytes) ^ u32::MAX
}

fn after_all(start: u32, bytes: &[u8]) -> u32
    ensures { result ≡ fold byte_step start bytes.now }
{
    let mut sum = start;
    let mut rest = bytes;
    while rest.len() >= 16 {
        let (block, behind) = rest.split_at(16);
        sum = after_block(sum, block);
        rest = behind;
    }
    after_bytes(sum, rest)
}

// The second word is looked up first: it doesn't wait for the sum.
fn after_block(sum: u32, block: &[u8]) -> u32
    requires { length block.now ≡ 16 }
    ensures { result ≡ fold byte_step sum block.now }
{
    let low = u64::from_le_bytes([
        block[0], block[1], block[2], block[3], block[4], block[5], block[6], block[7],
    ]);
    let high = u64::from_le_bytes([
        block[8], block[9], block[10], block[11], block[12], block[13], block[14], block[15],
    ]);
    word_out(high, 0) ^ word_out(low ^ u64::from(sum), 8)
}

// What the word becomes as it and so many zero bytes behind it are shifted out.
fn word_out(word: u64, zeros: usize) -> u32
    requires { zeros ≤ 8 }
    ensures { result ≡ bit_steps (8 * (zeros + 8)) word }
{
    let bytes = word.to_le_bytes();
    byte_out(bytes[7], zeros)
        ^ byte_out(bytes[6], zeros + 1)
        ^ byte_out(bytes[5], zeros + 2)
        ^ byte_out(bytes[4], zeros + 3)
        ^ byte_out(bytes[3], zeros + 4)
        ^ byte_out(bytes[2], zeros + 5)
        ^ byte_out(bytes[1], zeros + 6)
        ^ byte_out(bytes[0], zeros + 7)
}

fn after_bytes(start: u32, bytes: &[u8]) -> u32
    ensures { result ≡ fold byte_step start bytes.now }
{
    let mut sum = start;
    for byte in bytes {
        sum = after_byte(sum, *byte);
    }
    sum
}

fn after_byte(sum: u32, byte: u8) -> u32
    ensures { result ≡ byte_step sum byte }
{
    let low = ((sum ^ u32::from(byte)) % 256) as u8;
    (sum >> 8) ^ byte_out(low, 0)
}

// What the byte becomes as it and so many zero bytes behind it are shifted out.
fn byte_out(byte: u8, zeros: usize) -> u32
    requires { zeros < 16 }
    ensures { result ≡ bit_steps (8 * (zeros + 1)) byte }
{
    entry(&TABLE, 256 * zeros + usize::from(byte))
}

fn entry(table: &[u32; 4096], at: usize) -> u32
    requires { at < 4096 }
    ensures { result ≡ slice_index table.now at }
{
    table[at]
}
