// A reader of a feed, and where it stands.
ghost use Rattle.std.specs.Prelude.{◌≡◌, ◌≤◌, length};

/// A feed, and the position of the next line's first byte.
// The position, and no slice of what is left: a caller asks for it, and each field of a line says its place in the feed.
#[derive(Drop)]
pub struct LineReader<'a> {
    pub(crate) feed: &'a [u8],
    pub(crate) position: usize,
    ghost inside: { position ≤ length feed.now },
}

impl<'a> LineReader<'a> {
    /// A reader at the feed's first byte.
    pub fn new(feed: &'a [u8]) -> LineReader<'a>
        ensures start { result.position ≡ 0 }
        ensures feed { result.feed.now ≡ feed.now }
    {
        LineReader { feed, position: 0 }
    }

    /// The place of the next line's first byte, counted from 0; at the feed's end, the feed's length.
    pub fn position(&self) -> usize
        ensures { result ≡ self.now.position }
    {
        self.position
    }
}
