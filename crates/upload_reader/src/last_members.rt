//! The members of a line that messages have, found in one walk over all of them.
ghost use Rattle.std.specs.Prelude.{◌≡◌, map};
ghost use Rattle.serde_json.specs.Data.{object, no_members};
ghost use Rattle.json_document.specs.Standing.{data_of, members_behind, put_all};
ghost use Rattle.upload_reader.specs.inside.Walked.{named_members, with_member, AreLastMembers};

use json_document::{JsonPlace, Members};

/// The last member of each name that messages have: an earlier one of its name doesn't count.
#[derive(Drop)]
pub(crate) struct LastMembers<'t, 'a> {
    pub(crate) kind: Option<JsonPlace<'t, 'a>>,
    pub(crate) visit: Option<JsonPlace<'t, 'a>>,
    pub(crate) at: Option<JsonPlace<'t, 'a>>,
    pub(crate) parent: Option<JsonPlace<'t, 'a>>,
    pub(crate) from: Option<JsonPlace<'t, 'a>>,
    pub(crate) address: Option<JsonPlace<'t, 'a>>,
    pub(crate) page: Option<JsonPlace<'t, 'a>>,
    pub(crate) target: Option<JsonPlace<'t, 'a>>,
    pub(crate) value: Option<JsonPlace<'t, 'a>>,
    pub(crate) button: Option<JsonPlace<'t, 'a>>,
    pub(crate) req: Option<JsonPlace<'t, 'a>>,
}

impl<'t, 'a> LastMembers<'t, 'a> {
    /// Those of an object. Nothing else has any.
    pub(crate) fn of(message: &JsonPlace<'t, 'a>) -> LastMembers<'t, 'a>
        ensures { AreLastMembers (data_of message.now) result }
    {
        let Some(members) = message.members() else {
            return LastMembers::none();
        };
        LastMembers::walk(members)
    }

    fn none() -> LastMembers<'t, 'a>
        ensures { AreLastMembers (object no_members) result }
    {
        LastMembers {
            kind: None,
            visit: None,
            at: None,
            parent: None,
            from: None,
            address: None,
            page: None,
            target: None,
            value: None,
            button: None,
            req: None,
        }
    }

    // Walks all members.
    fn walk(members: Members<'t, 'a>) -> LastMembers<'t, 'a>
        ensures { AreLastMembers (object (put_all (members_behind members.entry) no_members)) result }
    {
        let mut members = members;
        let mut last = LastMembers::none();
        while let Some((name, place)) = members.next() {
            last.put(name, place);
        }
        last
    }

    fn put(&mut self, name: &str, place: JsonPlace<'t, 'a>)
        ensures { named_members self.new ≡ map (with_member name.now (data_of place.entry)) (named_members self.old) }
    {
        match name {
            "t" => self.kind = Some(place),
            "visit" => self.visit = Some(place),
            "at" => self.at = Some(place),
            "parent" => self.parent = Some(place),
            "from" => self.from = Some(place),
            "path" => self.address = Some(place),
            "page" => self.page = Some(place),
            "target" => self.target = Some(place),
            "value" => self.value = Some(place),
            "by" => self.button = Some(place),
            "req" => self.req = Some(place),
            _other => {}
        }
    }
}
