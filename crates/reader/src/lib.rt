// The reader that holds the text and its place, and moves on as it reads: an iterator over what the lines say. It leaves the work to `read_at`,
// which takes a slice and a number.
#![tactic(auto)]

ghost use Rattle.std.specs.Prelude.{◌≡◌};
ghost use Rattle.std.specs.Iterator.{item_count};
ghost use Rattle.reader.specs.Read.{read_at, found, moved_on, lines_left};

use tables::Call;

// A line at a place of a text: the call that it says, where it is a frame, and the place after it.
#[derive(Drop)]
struct Passage {
    frame: Option<Call>,
    next: usize,
}

// The work: the line at a place of a slice, or none at its end.
#[tactic(auto, using(crate::proofs::Laws::finds))]
fn read_at(text: &[u8], at: usize) -> Option<Passage>
    ensures { result ≡ read_at text.now at }
{
    if text.len() <= at {
        return None;
    }
    let end = frames::line_end(text, at);
    let frame = frames::decode(&text[at..end]);
    Some(Passage {
        frame,
        next: end + 1,
    })
}

// A text and a place in it, by document 01's form.
#[derive(Drop)]
pub struct Reader<'a> {
    text: &'a [u8],
    at: usize,
}

impl<'a> Reader<'a> {
    // At the start of a text.
    pub fn new(text: &'a [u8]) -> Reader<'a>
        ensures { (result.text ≡ text.entry) × (result.at ≡ 0) }
    {
        Reader { text, at: 0 }
    }
}

// What the line at its place says; behind that it then stands.
impl<'a> Iterator for Reader<'a> {
    type Item = Option<Call>;

    ghost next_gives = { λ s r t. (r ≡ found s) × (t ≡ moved_on s) };

    ghost remaining = { item_count lines_left };

    #[tactic(auto, using(crate::proofs::Laws::fewer))]
    fn next(&mut self) -> Option<Option<Call>> {
        let here = read_at(self.text, self.at)?;
        self.at = here.next;
        Some(here.frame)
    }
}
