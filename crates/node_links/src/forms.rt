// The form of a link.
ghost use Rattle.std.specs.Prelude.{◌≡◌};
ghost use Rattle.node_links.specs.Exchanges.{form_told as form_told_of, version_of as version_told, lesser as lesser_of, next_form as next_form_of, begins_anew as begins_anew_of};

use orswot_core::Form;

/// The form of the version that a hello tells; where it tells none that is the first.
pub fn form_told(version: Option<u64>) -> Form
    ensures { result ≡ form_told_of version }
{
    match version {
        Some(version) => { if version <= 1 { Form::One } else { Form::Two } },
        None => Form::One,
    }
}

// The version that a hello of this form tells.
pub(crate) fn version_of(form: Form) -> Option<u64>
    ensures { result ≡ version_told form }
{
    match form {
        Form::One => None,
        Form::Two => Some(2),
    }
}

// The lower of two.
pub(crate) fn lesser(one: Form, other: Form) -> Form
    ensures { result ≡ lesser_of one other }
{
    match one {
        Form::One => Form::One,
        Form::Two => other,
    }
}

/// The form of a dialling end's next hello, where this one was answered by none.
///
/// So a node that takes no version is met at the next dial, and one that was merely away is asked for the highest again
/// at the one after.
pub fn next_form(highest: Form, form: Form) -> Form
    ensures { result ≡ next_form_of highest form }
{
    match form {
        Form::One => highest,
        Form::Two => Form::One,
    }
}

/// Whether a link of a form is dialled anew, in the second: where it is of the first, while this node speaks the second and
/// so does the other node, by the last hello that came from there.
pub fn begins_anew(speaks: Form, theirs: Form, link: Form) -> bool
    ensures { result ≡ begins_anew_of speaks theirs link }
{
    match (speaks, theirs, link) {
        (Form::Two, Form::Two, Form::One) => true,
        _ => false,
    }
}
