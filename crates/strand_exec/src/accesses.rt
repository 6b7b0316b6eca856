ghost use Rattle.std.specs.Prelude.{◌≡◌, ◌+◌, ◌-◌, ◌*◌, ◌/◌, ◌%◌, ◌^◌, ◌<◌, ◌≤◌, ◌↔◌, IsTrue, Bool};
ghost use Rattle.strand_exec.specs.Arith.{load_bytes, load_value, merged, store_bytes};
ghost use Rattle.strand_exec.specs.Plan.{IsData, is_data, store_bits, store_mask};

use crate::arithmetic::{byte, half, word};
use crate::sizes::Sizes;
use strand_base::{PERSISTENT_BASE, VOLATILE_BASE};
use strand_isa::{LoadOp, StoreOp};

/// How many bytes a load reads.
pub(crate) fn load_bytes(op: LoadOp) -> u64
    ensures bytes { result ≡ load_bytes op }
    ensures some { 0 < result }
{
    match op {
        LoadOp::Lb => 1,
        LoadOp::Lh => 2,
        LoadOp::Lw => 4,
        LoadOp::Ld => 8,
        LoadOp::Lbu => 1,
        LoadOp::Lhu => 2,
        LoadOp::Lwu => 4,
    }
}

/// How many bytes a store writes.
pub(crate) fn store_bytes(op: StoreOp) -> u64
    ensures bytes { result ≡ store_bytes op }
    ensures some { 0 < result }
{
    match op {
        StoreOp::Sb => 1,
        StoreOp::Sh => 2,
        StoreOp::Sw => 4,
        StoreOp::Sd => 8,
    }
}

/// Whether an address is inside the volatile or the persistent words.
pub(crate) fn is_data(sizes: Sizes, address: u64) -> bool
    ensures value { result ≡ is_data sizes address }
    ensures inside { IsTrue result → IsData sizes address }
{
    let volatile = VOLATILE_BASE + 8 * u64::from(sizes.volatile);
    let persistent = PERSISTENT_BASE + 8 * u64::from(sizes.persistent);
    (VOLATILE_BASE <= address && address < volatile)
        || (PERSISTENT_BASE <= address && address < persistent)
}

/// What a load gives, from the word that holds its bytes.
pub(crate) fn load_value(op: LoadOp, loaded: u64, address: u64) -> u64
    ensures { result ≡ load_value op loaded (address % 8) }
{
    let low = loaded >> (8 * (address % 8));
    match op {
        LoadOp::Lb => byte(low),
        LoadOp::Lh => half(low),
        LoadOp::Lw => word(low),
        LoadOp::Ld => loaded,
        LoadOp::Lbu => low % 0x100,
        LoadOp::Lhu => low % 0x1_0000,
        LoadOp::Lwu => low % 0x1_0000_0000,
    }
}

/// The mask of `width` bits from bit `place` on.
fn mask(width: u32, place: u32) -> u64
    requires some { 0 < width }
    requires width { width < 64 }
    requires place { width + place ≤ 64 }
    ensures { result ≡ (2 ^ width - 1) * 2 ^ place }
{
    ((1u64 << width) - 1) << place
}

/// The low `width` bits of a value, moved to bit `place`.
fn placed(width: u32, place: u32, value: u64) -> u64
    requires some { 0 < width }
    requires width { width < 64 }
    requires place { width + place ≤ 64 }
    ensures { result ≡ value % 2 ^ width * 2 ^ place }
{
    (value % (1u64 << width)) << place
}

/// The bits that a store replaces in the word that holds its bytes.
pub(crate) fn store_mask(op: StoreOp, address: u64) -> u64
    requires { address % store_bytes op ≡ 0 }
    ensures { result ≡ store_mask op address }
{
    let place = 8 * ((address % 8) as u32);
    match op {
        StoreOp::Sb => mask(8, place),
        StoreOp::Sh => mask(16, place),
        StoreOp::Sw => mask(32, place),
        StoreOp::Sd => 0xffff_ffff_ffff_ffff,
    }
}

/// The low bytes of a value at the place of a store in its word.
pub(crate) fn store_bits(op: StoreOp, address: u64, value: u64) -> u64
    requires { address % store_bytes op ≡ 0 }
    ensures { result ≡ store_bits op address value }
{
    let place = 8 * ((address % 8) as u32);
    match op {
        StoreOp::Sb => placed(8, place, value),
        StoreOp::Sh => placed(16, place, value),
        StoreOp::Sw => placed(32, place, value),
        StoreOp::Sd => value,
    }
}

/// The word after a store: the bits of the mask give way to those of the store.
pub fn merged(word: u64, mask: u64, bits: u64) -> u64
    ensures { result ≡ merged word mask bits }
{
    (word & !mask) | bits
}
