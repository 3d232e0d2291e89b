//! The pieces of `review/pieces/events/` as parts of HTML that is made of them. `tools/pieces` writes this file.
ghost use Rattle.std.specs.Prelude.{◌≡◌, ◌++◌, OnOk};
ghost use Rattle.review_pieces.specs.Pieces.{event_html, event_here_html, event_line_html, pressed_html, value_html, visit_events_html};

use crate::html::Html;
use review_pieces::pieces;
use std::alloc::AllocError;

impl Html {
    /// `event.html`. After an error nothing is left.
    #[tactic(auto, using(crate::proofs::Nothing::made_of_nothing))]
    pub fn add_event(
        &mut self,
        what: &str,
        target: &str,
        then: &str,
        now: &str,
        pressed: &Html,
    ) -> Result<(), AllocError>
        ensures { OnOk result (self.new ≡ self.old ++ event_html what.now target.now then.now now.now pressed.now) }
    {
        let added = pieces::add_event(&mut self.bytes, what, target, then, now, pressed.as_slice());
        match added {
            Ok(()) => Ok(()),
            Err(fault) => {
                self.bytes.clear();
                Err(fault)
            }
        }
    }

    /// `event_here.html`. After an error nothing is left.
    #[tactic(auto, using(crate::proofs::Made::made_event_here, crate::proofs::Nothing::made_of_nothing))]
    pub fn add_event_here(&mut self) -> Result<(), AllocError>
        ensures { OnOk result (self.new ≡ self.old ++ event_here_html) }
    {
        let added = pieces::add_event_here(&mut self.bytes);
        match added {
            Ok(()) => Ok(()),
            Err(fault) => {
                self.bytes.clear();
                Err(fault)
            }
        }
    }

    /// `event_line.html`. After an error nothing is left.
    #[tactic(auto, using(crate::proofs::Nothing::made_of_nothing))]
    pub fn add_event_line(
        &mut self,
        what: &str,
        target: &str,
        here: &Html,
        value: &Html,
    ) -> Result<(), AllocError>
        ensures { OnOk result (self.new ≡ self.old ++ event_line_html what.now target.now here.now value.now) }
    {
        let added = pieces::add_event_line(
            &mut self.bytes,
            what,
            target,
            here.as_slice(),
            value.as_slice(),
        );
        match added {
            Ok(()) => Ok(()),
            Err(fault) => {
                self.bytes.clear();
                Err(fault)
            }
        }
    }

    /// `pressed.html`. After an error nothing is left.
    #[tactic(auto, using(crate::proofs::Made::made_pressed, crate::proofs::Nothing::made_of_nothing))]
    pub fn add_pressed(&mut self, by: &str) -> Result<(), AllocError>
        ensures { OnOk result (self.new ≡ self.old ++ pressed_html by.now) }
    {
        let added = pieces::add_pressed(&mut self.bytes, by);
        match added {
            Ok(()) => Ok(()),
            Err(fault) => {
                self.bytes.clear();
                Err(fault)
            }
        }
    }

    /// `value.html`. After an error nothing is left.
    #[tactic(auto, using(crate::proofs::Made::made_value, crate::proofs::Nothing::made_of_nothing))]
    pub fn add_value(&mut self, value: &str) -> Result<(), AllocError>
        ensures { OnOk result (self.new ≡ self.old ++ value_html value.now) }
    {
        let added = pieces::add_value(&mut self.bytes, value);
        match added {
            Ok(()) => Ok(()),
            Err(fault) => {
                self.bytes.clear();
                Err(fault)
            }
        }
    }

    /// `visit_events.html`. After an error nothing is left.
    #[tactic(auto, using(crate::proofs::Nothing::made_of_nothing))]
    pub fn add_visit_events(
        &mut self,
        start: &str,
        events: &Html,
        around: &Html,
    ) -> Result<(), AllocError>
        ensures { OnOk result (self.new ≡ self.old ++ visit_events_html start.now events.now around.now) }
    {
        let added = pieces::add_visit_events(
            &mut self.bytes,
            start,
            events.as_slice(),
            around.as_slice(),
        );
        match added {
            Ok(()) => Ok(()),
            Err(fault) => {
                self.bytes.clear();
                Err(fault)
            }
        }
    }
}
