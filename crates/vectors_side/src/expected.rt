// What a call of the metadata merge says, compared with what stands in the text: a number, behind 0 the side as it then is,
// behind 6 the field. What the call leaves is compared place by place: of a done call with that side, of a refused one with the
// side that it was handed.
ghost use Rattle.std.specs.Prelude.{◌≡◌, length};

use crate::is_side;
use leaves::refusal::Refusal;
use metadata_form::header::Header;
use metadata_form::lists::Lists;

// Memory for the lists of one side: one entry, one mapping and one interval more than the rules allow.
pub fn entries() -> [u32; 4097]
    ensures { 4097 ≡ length result }
{
    [0; 4097]
}

pub fn mapping_words() -> [u32; 8194]
    ensures { 8194 ≡ length result }
{
    [0; 8194]
}

pub fn interval_words() -> [u32; 196611]
    ensures { 196611 ≡ length result }
{
    [0; 196611]
}

// Whether a refusal comes with this field, where one comes with it.
fn is_field(refusal: Refusal, value: u64) -> bool {
    match refusal {
        Refusal::Differ(field) => u64::from(field.number()) == value,
        _ => true,
    }
}

// Whether a call says what stands at a place, and leaves the side behind its 0, or, refused, the side that it was handed, which
// stands at the place `handed`.
pub fn is_expected(
    text: &[u8],
    at: usize,
    handed: usize,
    header: Header,
    said: Result<Header, Refusal>,
    lists: Lists<'_>,
) -> bool {
    let number = vectors_text::number_at(text, at);
    match said {
        Ok(after) => number.value == 0 && is_side(text, number.next, after, lists),
        Err(refusal) => {
            let field = vectors_text::number_at(text, number.next);
            number.value == u64::from(refusal.number())
                && is_field(refusal, field.value)
                && is_side(text, handed, header, lists)
        }
    }
}
