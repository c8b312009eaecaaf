ghost use Rattle.std.specs.Prelude.{◌≡◌, ℕ, ◌<◌, ◌≤◌, ◌∷◌, length, []};
ghost use Rattle.mb_fdt_text.specs.Reader as reader;

/// The most elements that are open at one place.
const DEEPEST: usize = 16;

/// The names of the elements that are open. They stand at the end of the array, the innermost first.
#[derive(Clone, Copy)]
pub(crate) struct Path<'a> {
    names: [&'a [u8]; DEEPEST],
    free: usize,
    ghost whole: { length names ≡ 16 },
    ghost within: { free ≤ 16 },
}

impl<'a> Path<'a> {
    ghost use Rattle.mb_fdt.specs.PathView.{path_of};

    /// No element.
    pub(crate) fn outermost() -> Self
        ensures { path_of result ≡ [] }
    {
        Path {
            names: [&[]; DEEPEST],
            free: DEEPEST,
        }
    }

    /// How many elements are open.
    pub(crate) fn depth(&self) -> usize
        ensures { result ≡ length (path_of self.now) }
    {
        DEEPEST - self.free
    }

    /// The name of the innermost element, and no bytes where none is open.
    pub(crate) fn innermost(&self) -> &'a [u8]
        ensures { result.now ≡ reader.innermost (path_of self.now) }
    {
        if self.free < DEEPEST {
            self.names[self.free]
        } else {
            &[]
        }
    }

    /// Opens an element.
    pub(crate) fn enter(&mut self, name: &'a [u8])
        requires { length (path_of self.old) < 16 }
        ensures { path_of self.new ≡ name.now ∷ path_of self.old }
    {
        self.free -= 1;
        self.names[self.free] = name;
    }

    /// Ends the innermost element, where there is one.
    pub(crate) fn leave(&mut self)
        ensures { path_of self.new ≡ reader.outside (path_of self.old) }
    {
        if self.free < DEEPEST {
            self.free += 1;
        }
    }
}
