// Lines of fields.
ghost use Rattle.std.specs.Prelude.{◌<◌, ◌∷◌, ◌++◌, length, map, codes, decimal};
ghost use Rattle.std.specs.Fmt.{signed_decimal};
ghost use Rattle.std.specs.List.{flat_map};
ghost use Rattle.strand_base.specs.Puts.{Puts};
ghost use Rattle.strand_base.specs.Text.{line_text};
ghost use Rattle.strand_report.specs.Fields.{field_text};

use itoa::Buffer;
use strand_base::{OutOfMemory, print_decimal, print_hex16, put};

/// A piece of a line, which has no space in it.
#[derive(Clone, Copy)]
pub(crate) enum Field<'a> {
    /// A word as it stands.
    Word(&'a str),
    /// A number in decimal.
    Decimal(u64),
    /// A number that may be below 0, in decimal.
    Signed(i128),
    /// A number in sixteen hexadecimal digits.
    Hex(u64),
    /// The name of a register: `x` and its number.
    Register(u64),
}

fn put_signed(into: &mut Vec<u8>, z: i128) -> Result<(), OutOfMemory>
    ensures { Puts result (signed_decimal z) into.old.items into.new.items }
{
    let mut buffer = Buffer::new();
    put(into, buffer.format(z).as_bytes())
}

fn put_register(into: &mut Vec<u8>, register: u64) -> Result<(), OutOfMemory>
    ensures { Puts result (codes "x" ++ decimal register) into.old.items into.new.items }
{
    put(into, b"x")?;
    print_decimal(register, into)
}

fn put_field(into: &mut Vec<u8>, field: Field<'_>) -> Result<(), OutOfMemory>
    ensures { Puts result (field_text field.entry) into.old.items into.new.items }
{
    match field {
        Field::Word(word) => put(into, word.as_bytes()),
        Field::Decimal(n) => print_decimal(n, into),
        Field::Signed(z) => put_signed(into, z),
        Field::Hex(n) => print_hex16(n, into),
        Field::Register(register) => put_register(into, register),
    }
}

/// Appends a field with a space before it.
pub(crate) fn put_spaced(into: &mut Vec<u8>, field: Field<'_>) -> Result<(), OutOfMemory>
    ensures { Puts result (32 ∷ field_text field.entry) into.old.items into.new.items }
{
    put(into, b" ")?;
    put_field(into, field)
}

fn put_all_spaced(into: &mut Vec<u8>, fields: &[Field<'_>]) -> Result<(), OutOfMemory>
    ensures { Puts result (flat_map (λ f. 32 ∷ field_text f) fields.now)
        into.old.items into.new.items }
{
    for field in fields {
        put_spaced(into, *field)?;
    }
    Ok(())
}

/// Appends a line of fields, with one space between and a line end. `front` tells which line it is, and `rest` what it
/// says. Where memory ran out, a front of the line is appended; so it is with each line and text below.
pub(crate) fn put_fields(
    into: &mut Vec<u8>,
    front: &[Field<'_>],
    rest: &[Field<'_>],
) -> Result<(), OutOfMemory>
    requires { 0 < length front.now }
    ensures { Puts result (line_text (map field_text (front.now ++ rest.now)))
        into.old.items into.new.items }
{
    put_field(into, front[0])?;
    put_all_spaced(into, &front[1..])?;
    put_all_spaced(into, rest)?;
    put(into, b"\n")
}
