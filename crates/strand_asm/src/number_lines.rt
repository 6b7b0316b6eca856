ghost use Rattle.std.specs.Prelude.{◌≡◌, ◌++◌, ◌≤◌, ◌∷◌, [], decimal, drop};
ghost use Rattle.strand_base.specs.Hexadecimal.{hex16};
ghost use Rattle.strand_base.specs.Puts.{Puts};
ghost use Rattle.strand_asm.specs.Listing.{word_text};

use strand_base::{OutOfMemory, hex_digits, print_decimal, put};

fn put_number(into: &mut Vec<u8>, front: &[u8], n: u64) -> Result<(), OutOfMemory>
    ensures { Puts result (front.now ++ decimal n) into.old.items into.new.items }
{
    put(into, front)?;
    print_decimal(n, into)
}

pub(crate) fn put_number_line(into: &mut Vec<u8>, front: &[u8], n: u64) -> Result<(), OutOfMemory>
    ensures { Puts result (front.now ++ decimal n ++ 10 ∷ []) into.old.items into.new.items }
{
    put_number(into, front, n)?;
    put(into, b"\n")
}

fn put_digits(into: &mut Vec<u8>, n: u64, from: usize) -> Result<(), OutOfMemory>
    requires { from ≤ 16 }
    ensures { Puts result (drop from (hex16 n)) into.old.items into.new.items }
{
    put(into, &hex_digits(n)[from..])
}

fn put_word(into: &mut Vec<u8>, n: u64, from: usize) -> Result<(), OutOfMemory>
    requires { from ≤ 16 }
    ensures { Puts result (word_text from n) into.old.items into.new.items }
{
    put(into, b".word 0x")?;
    put_digits(into, n, from)
}

pub(crate) fn put_word_line(into: &mut Vec<u8>, n: u64, from: usize) -> Result<(), OutOfMemory>
    requires { from ≤ 16 }
    ensures { Puts result (word_text from n ++ 10 ∷ []) into.old.items into.new.items }
{
    put_word(into, n, from)?;
    put(into, b"\n")
}
