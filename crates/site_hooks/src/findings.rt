//! What paths find on a page, kept by the paths' numbers.
ghost use Rattle.std.specs.Prelude.{◌≡◌, ◌≤◌, ◌*◌, ℕ, length, get_or};
ghost use Rattle.xpath_child.specs.declared.path.Found.TheVariants.{Missing, Several};
ghost use Rattle.site_hooks.specs.Sets.{Has};

use xpath_child::Found;

/// What each path found. One past the last found nothing.
#[derive(Drop)]
pub(crate) struct Findings {
    pub(crate) found: Vec<Found>,
    // which paths may have found something, in words of 64
    pub(crate) reached: Vec<u64>,
    // of which paths there is nothing more to note, likewise, since they found several nodes
    pub(crate) settled: Vec<u64>,
    ghost room: { length found.items ≤ 64 * length reached.items },
    ghost none: { (number : ℕ) → ¬ (Has reached.items number) → get_or found.items number Missing ≡ Missing },
    ghost several: { (number : ℕ) → Has settled.items number → get_or found.items number Missing ≡ Several },
}
