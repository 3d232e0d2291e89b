//! Why a request isn't answered, and by which status that is said.
ghost use Rattle.std.specs.Prelude.{◌≡◌};
ghost use Rattle.review_requests.specs.Status.{refusal_status};

/// Why a request isn't answered.
#[derive(Clone, Copy, Debug, PartialEq, Eq)]
pub enum Refusal {
    /// 421: it is for another host, or for none.
    OtherHost,
    /// 404: nothing stands there, or the query doesn't say what the view needs.
    NoAddress,
    /// 405: what stands there is only read, by GET and HEAD.
    OnlyRead,
    /// 405: decisions are only posted.
    OnlyPosted,
    /// 403: it comes from another page, or from none.
    OtherPage,
    /// 415: what is posted is no form.
    NoForm,
    /// 413: the form is too long.
    LongForm,
    /// 400: the form says no decision.
    BadForm,
    /// 403: the form is without this start's token.
    OldToken,
}

impl Refusal {
    pub fn status(self) -> u16
        ensures { result ≡ refusal_status self }
    {
        match self {
            Refusal::OtherHost => 421,
            Refusal::NoAddress => 404,
            Refusal::OnlyRead => 405,
            Refusal::OnlyPosted => 405,
            Refusal::OtherPage => 403,
            Refusal::NoForm => 415,
            Refusal::LongForm => 413,
            Refusal::BadForm => 400,
            Refusal::OldToken => 403,
        }
    }
}
