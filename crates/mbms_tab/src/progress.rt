/// Who is told how far long work is. No contract says anything of it.
pub trait Progress {
    /// So many parts of the work are done, of all.
    fn tell(&mut self, done: usize, all: usize);
}

/// Tells it on the standard error where that is a terminal, in one line that is written over.
#[derive(Drop)]
pub struct OnTerminal<'a, R: Eprint> {
    rt: &'a R,
    is_terminal: bool,
}

impl<'a, R: Eprint> OnTerminal<'a, R> {
    pub fn new(rt: &'a R, is_terminal: bool) -> Self {
        OnTerminal { rt, is_terminal }
    }
}

impl<'a, R: Eprint> Progress for OnTerminal<'a, R> {
    fn tell(&mut self, done: usize, all: usize) {
        if !self.is_terminal {
            return;
        }
        let end = if done < all { '\r' } else { '\n' };
        // The work goes on where it can't be told.
        let _ = eprint!(self.rt; "{done} of {all}{end}");
    }
}
