//! The numbers of qualifiers.
ghost use Rattle.std.specs.Prelude.{◌≡◌, ◌≢◌, IfSome, IfNone};
ghost use Rattle.cell_key.specs.declared.keys.Qualifier.{Qualifier as Qualifiers};
ghost use Rattle.request_codec.specs.Fields.{qualifier_number};

use cell_key::Qualifier;

const DATA: u8 = 0x01;

const LOCK: u8 = 0x02;

const WRITE: u8 = 0x03;

/// The number of a qualifier.
pub(crate) fn number_of(qualifier: Qualifier) -> u8
    ensures { result ≡ qualifier_number qualifier }
{
    match qualifier {
        Qualifier::Data => DATA,
        Qualifier::Lock => LOCK,
        Qualifier::Write => WRITE,
    }
}

/// The qualifier with a number; `None` if there is no such qualifier.
pub(crate) fn qualifier_of(number: u8) -> Option<Qualifier>
    ensures found { IfSome result (λ qualifier. qualifier_number qualifier ≡ number) }
    ensures none { IfNone result ((qualifier : Qualifiers) → qualifier_number qualifier ≢ number) }
{
    match number {
        DATA => Some(Qualifier::Data),
        LOCK => Some(Qualifier::Lock),
        WRITE => Some(Qualifier::Write),
        _ => None,
    }
}
