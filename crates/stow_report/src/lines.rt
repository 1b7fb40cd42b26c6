//! Lines of what is refused.
ghost use Rattle.std.specs.Prelude.{◌≡◌, ◌∷◌, ◌++◌, map, flat_map, IfOk, OnOk};
ghost use Rattle.std.specs.Fmt.{decimal};
ghost use Rattle.stow_report.specs.declared.lines.Field.TheVariants.{Number};
ghost use Rattle.stow_report.specs.Refusals.{numbered, keyed, group_word, field_text, refusal_text};

use itoa::Buffer;
use std::alloc::Global;
use stow_data::{Bytes, Name, NoMemory, Seq};

/// What a refusal is of.
#[derive(Clone, Copy)]
pub enum Group {
    /// The command line.
    Words,

    /// The ship's profile.
    Profile,

    /// The bookings.
    Bookings,

    /// An interchange (ISO 9735).
    Edifact,

    /// A bay plan message (SMDG BAPLIE 2.2).
    Baplie,

    /// The arrival file as cargo.
    Arrival,

    /// A limit that is passed.
    Large,

    /// A certificate's text.
    Cert,

    /// The departure files as a set.
    Plan,

    /// A certificate's tree.
    Bound,

    /// A certificate's numbers.
    Numbers,
}

/// What a refusal tells besides its number.
#[derive(Drop)]
pub enum Field {
    Number(i128),
    Named(Name),
}

/// A list of fields.
pub type FieldList = Seq<Field>;

/// A refusal, as one line is printed of it.
#[derive(Drop)]
pub struct Line {
    /// Whether it stands in the answer of a check.
    pub checked: bool,
    pub group: Group,

    /// The number of the refusal in its group.
    pub number: u32,

    /// Its fields, in the order of their declaration.
    pub fields: FieldList,
}

/// A line whose fields are numbers.
pub fn numbered(
    alloc: Global,
    checked: bool,
    group: Group,
    number: u32,
    numbers: &[i128],
) -> Result<Line, NoMemory>
    ensures { IfOk result (λ line. line ≡ numbered checked group number numbers.now) }
{
    let mut fields = FieldList::new(alloc);
    push_numbers(&mut fields, numbers)?;
    Ok(Line {
        checked,
        group,
        number,
        fields,
    })
}

/// A line whose fields are a name and then numbers.
pub fn keyed(
    alloc: Global,
    checked: bool,
    group: Group,
    number: u32,
    key: Name,
    numbers: &[i128],
) -> Result<Line, NoMemory>
    ensures { IfOk result (λ line. line ≡ keyed checked group number key numbers.now) }
{
    let mut fields = FieldList::new(alloc);
    fields.push(Field::Named(key))?;
    push_numbers(&mut fields, numbers)?;
    Ok(Line {
        checked,
        group,
        number,
        fields,
    })
}

/// Appends numbers as fields.
fn push_numbers(fields: &mut FieldList, numbers: &[i128]) -> Result<(), NoMemory>
    ensures { OnOk result (fields.new ≡ fields.old ++ map (λ z. Number z) numbers.now) }
{
    for number in numbers {
        fields.push(Field::Number(*number))?;
    }
    Ok(())
}

/// The text of a line, with its line feed: `refused`, or `check no` in a check, then the group, the
/// number and the fields.
pub fn refusal(alloc: Global, line: &Line) -> Result<Bytes, NoMemory>
    ensures { IfOk result (λ text. text ≡ refusal_text line.now) }
{
    let front: &[u8] = if line.checked {
        b"check no "
    } else {
        b"refused "
    };
    let mut out = Bytes::of(alloc, front)?;
    out.extend(group_word(line.group))?;
    write_number(&mut out, line.number)?;
    write_fields(&mut out, &line.fields)?;
    out.push(b'\n')?;
    Ok(out)
}

/// The word of a group.
fn group_word(group: Group) -> &'static [u8]
    ensures { result.now ≡ group_word group }
{
    match group {
        Group::Words => b"words",
        Group::Profile => b"profile",
        Group::Bookings => b"bookings",
        Group::Edifact => b"edifact",
        Group::Baplie => b"baplie",
        Group::Arrival => b"arrival",
        Group::Large => b"large",
        Group::Cert => b"cert",
        Group::Plan => b"plan",
        Group::Bound => b"bound",
        Group::Numbers => b"numbers",
    }
}

/// Appends a space and a number.
fn write_number(out: &mut Bytes, number: u32) -> Result<(), NoMemory>
    ensures { OnOk result (out.new ≡ out.old ++ 32 ∷ decimal number) }
{
    out.push(b' ')?;
    out.extend(Buffer::new().format(number).as_bytes())
}

/// Appends fields, each after a space.
fn write_fields(out: &mut Bytes, fields: &FieldList) -> Result<(), NoMemory>
    ensures { OnOk result (out.new ≡ out.old ++ flat_map (λ f. 32 ∷ field_text f) fields.now) }
{
    for field in fields.as_slice() {
        write_field(out, field)?;
    }
    Ok(())
}

/// Appends a space and a field.
fn write_field(out: &mut Bytes, field: &Field) -> Result<(), NoMemory>
    ensures { OnOk result (out.new ≡ out.old ++ 32 ∷ field_text field.now) }
{
    out.push(b' ')?;
    match field {
        Field::Number(number) => out.extend(Buffer::new().format(*number).as_bytes()),
        Field::Named(name) => out.extend(name.bytes()),
    }
}
