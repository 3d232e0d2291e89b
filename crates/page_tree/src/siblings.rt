//! Where an element stands among its siblings: counted when asked.
ghost use Rattle.std.specs.Prelude.{◌≡◌, ◌<◌, option_map, true, false};
ghost use Rattle.std.specs.Option.{option_map_or};
ghost use Rattle.std.specs.Str.{bytes_eq};
ghost use Rattle.page_tree.specs.Limits.{nodes};
ghost use Rattle.page_tree.specs.Number.{place_numbered, count_of, siblings_before, elements_before_at, same_before_at};
ghost use Rattle.page_tree.specs.inside.Kept.{is_element_of};

use crate::page::Page;

impl Page {
    /// How many elements stand before the element with that number, among its siblings; 0 for a text. The time grows with how many siblings stand
    /// before it.
    #[tactic(auto, using(crate::proofs::SiblingLaws::named_there))]
    pub fn elements_before(&self, number: u32) -> u32
        ensures { result ≡ elements_before_at (place_numbered number self.now) self.now }
    {
        match self.name_of(number) {
            None => 0,
            Some(_name) => self.count_before(number, None),
        }
    }

    /// How many elements of its name stand before the element with that number, among its siblings; 0 for a text. The time grows with how many
    /// siblings stand before it.
    #[tactic(auto, using(crate::proofs::SiblingLaws::named_there))]
    pub fn same_before(&self, number: u32) -> u32
        ensures { result ≡ same_before_at (place_numbered number self.now) self.now }
    {
        match self.name_of(number) {
            None => 0,
            Some(name) => self.count_before(number, Some(name)),
        }
    }

    // How many elements stand before that node, among its siblings; with a name, those of that name.
    fn count_before(&self, number: u32, name: Option<&str>) -> u32
        requires { number < nodes self.now }
        ensures { result ≡ count_of (is_element_of (option_map (λ name. name.now) name.entry))
            (siblings_before (place_numbered number self.now) self.now) }
    {
        let parent = self.table().parent(number as usize);
        let mut count = 0;
        let mut sibling = self.nodes_under(parent).start;
        for _i in 0..self.table().position(number as usize) {
            if is_one(self.name_of(sibling), name) {
                count += 1;
            }
            sibling = self.nodes_under(sibling).end;
        }
        count
    }
}

// Whether there is a name, or that name.
fn is_one(own: Option<&str>, name: Option<&str>) -> bool
    ensures { result ≡ option_map_or (λ own. option_map_or (bytes_eq own) (option_map (λ n. n.now) name.entry) true)
        (option_map (λ n. n.now) own.entry) false }
{
    match (own, name) {
        (None, _) => false,
        (Some(_own), None) => true,
        (Some(own), Some(name)) => own == name,
    }
}
