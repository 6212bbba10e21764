// The questions of a file, one after another.
//
// A question has: length of its name (1 byte), kind (1), two numbers (4 each), lengths of the steps (2) and of the record (2); then
// name, steps and record.
ghost use Rattle.std.specs.Prelude.{◌<◌, length, IfSome, MatchOption};
ghost use Rattle.cases.specs.Questions.{question_length, IsFirst};

// What is asked of the table that a record holds: the kind, and two numbers and the runner's steps for the kinds that take them.
#[derive(Clone, Copy)]
pub struct Question<'a> {
    pub name: &'a [u8],
    pub kind: u8,
    pub first: u32,
    pub second: u32,
    pub steps: &'a [u8],
    pub bytes: &'a [u8],
}

// The first question and what follows it; nothing where the bytes are cut before its end.
pub fn first<'a>(bytes: &'a [u8]) -> Option<(Question<'a>, &'a [u8])>
    ensures question { MatchOption result (length bytes.now < question_length bytes.now) (λ p. IsFirst bytes.now p.0 p.1.now) }
    ensures shorter { IfSome result (λ p. length p.1.now < length bytes.now) }
{
    let ([name, kind], rest) = bytes.split_first_chunk::<2>()?;
    let (first, rest) = rest.split_first_chunk()?;
    let (second, rest) = rest.split_first_chunk()?;
    let (steps, rest) = rest.split_first_chunk()?;
    let (bytes, rest) = rest.split_first_chunk()?;
    let (name, rest) = rest.split_at_checked(usize::from(*name))?;
    let (steps, rest) = rest.split_at_checked(usize::from(u16::from_be_bytes(*steps)))?;
    let (bytes, rest) = rest.split_at_checked(usize::from(u16::from_be_bytes(*bytes)))?;
    let question = Question {
        name,
        kind: *kind,
        first: u32::from_be_bytes(*first),
        second: u32::from_be_bytes(*second),
        steps,
        bytes,
    };
    Some((question, rest))
}
