// A metadata's header at the C door: fourteen words, one a field, the counts in use last.
ghost use Rattle.std.specs.Prelude.{◌≡◌, nat_le, length};
ghost use Rattle.std.specs.List.{list_all, zip};
ghost use Rattle.metadata_form.specs.Header.{numbers_of};
ghost use Rattle.door_answers.specs.Header.{within, header_read};

use metadata_form::header::Header;

// The most that each word may hold, by the width of its field.
const WIDTHS: [u64; 14] = [
    u8::MAX as u64,
    u32::MAX as u64,
    u16::MAX as u64,
    u64::MAX,
    u64::MAX,
    u64::MAX,
    u8::MAX as u64,
    u8::MAX as u64,
    1,
    u64::MAX,
    u64::MAX,
    u64::MAX,
    u64::MAX,
    u64::MAX,
];

// Whether no word is over its bound, pair by pair.
fn none_over(words: &[u64], most: &[u64]) -> bool
    ensures { result ≡ list_all (λ p. nat_le p.0 p.1) (zip words.now most.now) }
{
    words.iter().zip(most).all(|(word, bound)| *word <= *bound)
}

// Whether there are as many words as bounds, none of them over its own.
fn is_within(words: &[u64], most: &[u64]) -> bool
    ensures { result ≡ within words.now most.now }
{
    words.len() == most.len() && none_over(words, most)
}

// The header that words are: fourteen, each within its field's width; where they are none, 15.
#[tactic(auto, using(crate::specs::HeaderLaws::within_length))]
pub fn header_of(words: &[u64]) -> Option<Header>
    ensures { result ≡ header_read words.now }
{
    if !is_within(words, &WIDTHS) {
        return None;
    }
    Some(Header {
        version: words[0] as u8,
        dataset: words[1] as u32,
        schema: words[2] as u16,
        start: words[3],
        end: words[4],
        limit: words[5],
        stype_in: words[6] as u8,
        stype_out: words[7] as u8,
        ts_out: words[8] == 1,
        symbol_cstr_len: words[9],
        symbols: words[10] as usize,
        partial: words[11] as usize,
        not_found: words[12] as usize,
        mappings: words[13] as usize,
    })
}

// A header's words.
fn words_of(h: Header) -> [u64; 14]
    ensures { result ≡ numbers_of h }
{
    [
        h.version as u64,
        h.dataset as u64,
        h.schema as u64,
        h.start,
        h.end,
        h.limit,
        h.stype_in as u64,
        h.stype_out as u64,
        h.ts_out as u64,
        h.symbol_cstr_len,
        h.symbols as u64,
        h.partial as u64,
        h.not_found as u64,
        h.mappings as u64,
    ]
}

// A header over the words of another.
pub fn put_header(words: &mut [u64], h: Header)
    requires { length words.old ≡ 14 }
    ensures { words.new ≡ numbers_of h }
{
    words.copy_from_slice(&words_of(h));
}
