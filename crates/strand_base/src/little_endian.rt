// Numbers of four or eight bytes each, the low byte first, one after the other.
ghost use Rattle.std.specs.Prelude.{◌≡◌, ◌+◌, ◌*◌, ◌≤◌, length, drop, IfOk};
ghost use Rattle.strand_base.specs.LittleEndian.{u32_of, u64_of, u32s, u64s, bytes_of_u32, bytes_of_u64, bytes_of_u32s, bytes_of_u64s};
ghost use Rattle.strand_base.specs.Puts.{Puts};

use crate::OutOfMemory;
use crate::writing::put;
use std::alloc::Global;

/// The number that the four bytes from place `at` on write, the low byte first.
#[tactic(auto, unfolding(crate::specs::LittleEndian::u32_of))]
pub fn u32_at(bytes: &[u8], at: usize) -> u32
    requires { at + 4 ≤ length bytes.now }
    ensures { result ≡ u32_of (drop at bytes.now) }
{
    u32::from_le_bytes([bytes[at], bytes[at + 1], bytes[at + 2], bytes[at + 3]])
}

// The same of eight bytes.
#[tactic(auto, unfolding(crate::specs::LittleEndian::u64_of))]
fn u64_at(bytes: &[u8], at: usize) -> u64
    requires { at + 8 ≤ length bytes.now }
    ensures { result ≡ u64_of (drop at bytes.now) }
{
    u64::from_le_bytes([
        bytes[at],
        bytes[at + 1],
        bytes[at + 2],
        bytes[at + 3],
        bytes[at + 4],
        bytes[at + 5],
        bytes[at + 6],
        bytes[at + 7],
    ])
}

/// The first `count` numbers, of four bytes each and the low byte first. `OutOfMemory` comes where there is no
/// memory for them.
pub fn read_u32s(alloc: Global, bytes: &[u8], count: u32) -> Result<Vec<u32>, OutOfMemory>
    requires { 4 * count ≤ length bytes.now }
    ensures { IfOk result (λ v. v.items ≡ u32s count bytes.now) }
{
    let mut numbers = Vec::with_capacity(alloc, count as usize)?;
    for k in 0..count as usize {
        numbers.push(u32_at(bytes, 4 * k))?;
    }
    Ok(numbers)
}

/// The first `count` numbers, of eight bytes each and the low byte first. `OutOfMemory` comes where there is no
/// memory for them.
pub fn read_u64s(alloc: Global, bytes: &[u8], count: u32) -> Result<Vec<u64>, OutOfMemory>
    requires { 8 * count ≤ length bytes.now }
    ensures { IfOk result (λ v. v.items ≡ u64s count bytes.now) }
{
    let mut numbers = Vec::with_capacity(alloc, count as usize)?;
    for k in 0..count as usize {
        numbers.push(u64_at(bytes, 8 * k))?;
    }
    Ok(numbers)
}

#[tactic(auto, unfolding(crate::specs::LittleEndian::bytes_of_u32))]
fn put_u32(into: &mut Vec<u8>, number: u32) -> Result<(), OutOfMemory>
    ensures { Puts result (bytes_of_u32 number) into.old.items into.new.items }
{
    put(into, &number.to_le_bytes())
}

#[tactic(auto, unfolding(crate::specs::LittleEndian::bytes_of_u64))]
fn put_u64(into: &mut Vec<u8>, number: u64) -> Result<(), OutOfMemory>
    ensures { Puts result (bytes_of_u64 number) into.old.items into.new.items }
{
    put(into, &number.to_le_bytes())
}

/// Appends numbers, in four bytes each and the low byte first. Where memory ran out, a front of the bytes is
/// appended.
pub fn put_u32s(into: &mut Vec<u8>, numbers: &[u32]) -> Result<(), OutOfMemory>
    ensures { Puts result (bytes_of_u32s numbers.now) into.old.items into.new.items }
{
    for number in numbers {
        put_u32(into, *number)?;
    }
    Ok(())
}

/// Appends numbers, in eight bytes each and the low byte first. Where memory ran out, a front of the bytes is
/// appended.
pub fn put_u64s(into: &mut Vec<u8>, numbers: &[u64]) -> Result<(), OutOfMemory>
    ensures { Puts result (bytes_of_u64s numbers.now) into.old.items into.new.items }
{
    for number in numbers {
        put_u64(into, *number)?;
    }
    Ok(())
}
