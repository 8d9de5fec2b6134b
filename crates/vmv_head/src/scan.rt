ghost use Rattle.std.specs.Prelude.{◌≡◌, ◌+◌, ◌≤◌, ◌++◌, ◌==◌, ◌-◌, ◌<◌, [], ℕ, List, length, count_by, drop, slice_index, IfSome, None, Some};
ghost use Rattle.std.specs.Option.{option_map};
ghost use Rattle.vmv_head.specs.Heads.{blank_length, empty_line, front_length, header_lines};
ghost use Rattle.vmv_head.specs.Places.{rest_length, moved};

/// Where the byte stands that was read last of an input whose head isn't whole yet.
#[derive(Clone, Copy, PartialEq, Eq, Debug, Drop)]
pub enum Place {
    /// At the start, or behind an empty line in front of the head.
    Blank,
    /// At a return behind which a line feed makes an empty line in front of the head.
    BlankReturn,
    /// Inside a line of the head.
    Line,
    /// At the end of a line of the head.
    LineEnd,
    /// At a return behind which a line feed ends the head.
    LineEndReturn,
}

fn begun(byte: u8) -> Place
    ensures { Some result ≡ moved Place.Blank byte }
{
    match byte {
        b'\n' => Place::Blank,
        b'\r' => Place::BlankReturn,
        _ => Place::Line,
    }
}

fn behind_end(byte: u8) -> Option<Place>
    ensures { result ≡ moved Place.LineEnd byte }
{
    match byte {
        b'\n' => None,
        b'\r' => Some(Place::LineEndReturn),
        _ => Some(Place::Line),
    }
}

/// The place behind one more byte, or none where the head is whole with it.
fn moved(place: Place, byte: u8) -> Option<Place>
    ensures { result ≡ moved place byte }
{
    let feed = byte == b'\n';
    match place {
        Place::Blank => Some(begun(byte)),
        Place::BlankReturn => Some(if feed { Place::Blank } else { Place::Line }),
        Place::Line => Some(if feed { Place::LineEnd } else { Place::Line }),
        Place::LineEnd => behind_end(byte),
        Place::LineEndReturn => if feed { None } else { Some(Place::Line) },
    }
}

impl Place {
    /// Goes on over the next bytes of the input. Answers with how many of them the head ends, where it ends in them.
    pub fn feed(&mut self, bytes: &[u8]) -> Option<usize>
        ensures within { IfSome result (λ n. n ≤ length bytes.now) }
        ensures whole { IfSome result (λ n. (more : List ℕ) → rest_length self.old (bytes.now ++ more) ≡ Some n) }
        ensures goes_on { result ≡ None → (more : List ℕ) → rest_length self.old (bytes.now ++ more) ≡ option_map (λ n. length bytes.now + n) (rest_length self.new more) }
    {
        let mut i = 0;
        while i < bytes.len() {
            match moved(*self, bytes[i]) {
                Some(next) => *self = next,
                None => return Some(i + 1),
            }
            i += 1;
        }
        None
    }
}

fn byte_at(bytes: &[u8], at: usize) -> u8
    ensures { result ≡ slice_index bytes.now at }
{
    if at < bytes.len() { bytes[at] } else { 0 }
}

/// How long the empty line at a place is; 0 where there is none.
#[tactic(auto, using(crate::proofs::Reading::reading))]
fn empty_line(bytes: &[u8], at: usize) -> usize
    requires { at < length bytes.now }
    ensures value { result ≡ empty_line (drop at bytes.now) }
    ensures within { at + result ≤ length bytes.now }
{
    let first = byte_at(bytes, at);
    let second = byte_at(bytes, at + 1);
    if first == b'\n' {
        1
    } else if first == b'\r' && second == b'\n' {
        2
    } else {
        0
    }
}

/// How many bytes the empty lines in front of a head take.
#[tactic(auto, using(crate::proofs::Reading::blanks))]
pub fn blank_length(bytes: &[u8]) -> usize
    ensures value { result ≡ blank_length bytes.now }
    ensures within { result ≤ length bytes.now }
{
    let mut at = 0;
    while at < bytes.len() {
        let len = empty_line(bytes, at);
        if len == 0 {
            return at;
        }
        at += len;
    }
    at
}

/// How many header lines a head has: its lines but the first and the empty one.
pub fn header_lines(head: &[u8]) -> usize
    ensures { result ≡ header_lines head.now }
{
    head.iter()
        .filter(|byte| **byte == b'\n')
        .count()
        .saturating_sub(2)
}
