// The fields layer of a task file: takes the bytes apart, field by field.
#![tactic(auto)]

mod tag;

ghost use Rattle.std.specs.Prelude.{◌≡◌};
ghost use Rattle.fields.specs.Layout.{field_at};
ghost use Rattle.fields.specs.Said.{number, said};

pub use tag::Tag;

// A field of a task file. Its body is a part of the file.
#[derive(Clone, Copy, Debug)]
pub enum Field<'a> {
    Header(&'a [u8]),
    Point(&'a [u8]),
    Evicting(&'a [u8]),
    End,
}

// A field with the place where it begins, and the bytes that follow it.
#[derive(Clone, Copy, Debug)]
pub struct Taken<'a> {
    pub field: Field<'a>,
    pub place: usize,
    pub after: &'a [u8],
}

#[derive(Clone, Copy, Debug, PartialEq, Eq)]
pub enum FieldCause {
    // the input ends in the field, or before the end field
    Cut = 1,
    // the tag is not 1 to 4
    Tag = 2,
    // the length is wrong for the tag
    Length = 4,
}

// Why there is no field, and the place where it should begin.
#[derive(Clone, Copy, Debug, PartialEq, Eq)]
pub struct FieldFault {
    pub cause: FieldCause,
    pub place: usize,
}

impl FieldCause {
    // `as` wants the enum's own type, so that each enum of causes says this for itself.
    pub fn number(self) -> u8
        ensures { result ≡ number self }
    {
        self as u8
    }
}

// Takes the field that `bytes` begins with; `place` is where they begin in the file.
pub fn take_field(bytes: &[u8], place: usize) -> Result<Taken<'_>, FieldFault>
    ensures { said result ≡ field_at place bytes.now }
{
    let fault = |cause| FieldFault { cause, place };
    let [tag, hi, lo, rest @ ..] = bytes else {
        return Err(fault(FieldCause::Cut));
    };
    let tag = Tag::try_from(*tag).map_err(fault)?;
    let length = u16::from_be_bytes([*hi, *lo]) as usize;
    if !tag.allows(length) {
        return Err(fault(FieldCause::Length));
    }
    let (body, after) = rest.split_at_checked(length).ok_or(fault(FieldCause::Cut))?;
    Ok(Taken {
        field: tag.field(body),
        place,
        after,
    })
}
