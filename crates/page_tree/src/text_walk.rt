//! Whether two nodes have the same text, of one page or of two.
ghost use Rattle.std.specs.Prelude.{◌≡◌, ◌↔◌, ◌≤◌, [], IsTrue, length, drop};
ghost use Rattle.page_tree.specs.Number.{text_numbered};
ghost use Rattle.page_tree.specs.inside.TextWalk.{unread_text};

use crate::page::Page;

impl Page {
    /// Whether the texts at or under the node with that number, joined, are those of a node of another page. It takes no memory: they are read side by
    /// side, up to the first difference.
    pub fn has_text_of(&self, number: u32, other: &Page, other_number: u32) -> bool
        ensures { IsTrue result ↔ (text_numbered number self.now ≡ text_numbered other_number other.now) }
    {
        let mut left = TextWalk::of(self, number);
        let mut right = TextWalk::of(other, other_number);
        loop {
            let piece = left.piece();
            let other_piece = right.piece();
            let many = piece.len().min(other_piece.len());
            if many == 0 {
                return piece.len() == other_piece.len();
            }
            if piece[..many] != other_piece[..many] {
                return false;
            }
            left.pass(many);
            right.pass(many);
        }
    }
}

// A walk over the texts at or under a node: what is still to be read of them.
#[derive(Drop)]
struct TextWalk<'a> {
    page: &'a Page,
    // the rest of a text that was begun
    piece: &'a [u8],
    // the numbers of the nodes behind it
    next: u32,
    end: u32,
}

impl<'a> TextWalk<'a> {
    // All of it.
    #[tactic(auto, using(crate::proofs::LoopLaws::texts_first, crate::proofs::Numbers::has_none))]
    fn of(page: &'a Page, number: u32) -> TextWalk<'a>
        ensures { unread_text result ≡ text_numbered number page.now }
    {
        let end = match page.index(number) {
            None => number,
            Some(index) => page.table().end_of(index),
        };
        TextWalk {
            page,
            piece: "".as_bytes(),
            next: number,
            end,
        }
    }

    // What comes first of it; empty only at its end.
    fn piece(&mut self) -> &'a [u8]
        ensures same { unread_text self.new ≡ unread_text self.old }
        ensures piece { result.now ≡ self.new.piece.now }
        ensures end { length result.now ≡ 0 → unread_text self.new ≡ [] }
    {
        while self.piece.is_empty() && self.next < self.end {
            self.piece = self.page.words_of(self.next).as_bytes();
            self.next += 1;
        }
        self.piece
    }

    // Passes so many bytes.
    fn pass(&mut self, many: usize)
        requires { many ≤ length self.old.piece.now }
        ensures { unread_text self.new ≡ drop many (unread_text self.old) }
    {
        self.piece = &self.piece[many..];
    }
}
