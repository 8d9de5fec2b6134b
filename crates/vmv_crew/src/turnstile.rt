/// What each place passes before its job runs, on the thread of that job.
///
/// A turnstile is for tests, which see by it that two threads ran: it may hold a place until another
/// one has passed. It tells the job nothing and takes no memory.
pub trait Turnstile {
    /// Lets a place through, now or later.
    fn pass(&self, place: usize);
}

/// The turnstile that lets every place through at once.
#[derive(Clone, Copy, Debug)]
pub struct Open;

impl Turnstile for Open {
    fn pass(&self, _place: usize) {}
}
