//! The rules by which a service's calls are denied.

ghost use Rattle.std.specs.Prelude.{◌≡◌};
ghost use Rattle.okws_base.specs.Denial.{rule_number};

/// The rule that a denied call breaks first.
#[derive(Clone, Copy, PartialEq, Eq)]
pub enum Rule {
    /// Open, Call: the proxy isn't declared.
    NoSuchProxy,
    /// Open: the token was never issued to this service at this proxy.
    UnknownToken,
    /// Open: the token was issued to another incarnation, or this one isn't live. Call: this one isn't live.
    StaleToken,
    /// Call: the session number isn't below the count that this incarnation opened at the proxy.
    NoSession,
    /// Call: the service has no grant of the query.
    QueryNotGranted,
    /// Call: the arguments don't fit the query's parameters in count or kinds.
    BadArguments,
    /// Call: the frame of the rows would be longer than a frame may be.
    AnswerTooLarge,
    /// Open: the incarnation has opened as many sessions here as it may.
    TooManySessions,
    /// Get: the incarnation isn't live at the template publisher.
    StaleAtPubd,
    /// Get: the service may not read such a template, or there is none.
    TemplateNotGranted,
    /// Get: the template has no edition yet.
    TemplateUnpublished,
    /// Log: the incarnation isn't live at the log daemon.
    StaleAtLog,
    /// Log: the service may not write to the log.
    LogNotGranted,
    /// Log: the text is longer than a logged text may be.
    LogTooLong,
}

impl Rule {
    /// The number by which a Denied frame names the rule: 10 to 17 at a proxy, 20 to 22 at the
    /// template publisher, 30 to 32 at the log daemon.
    pub fn number(self) -> u8
        ensures { result ≡ rule_number self }
    {
        match self {
            Rule::NoSuchProxy => 10,
            Rule::UnknownToken => 11,
            Rule::StaleToken => 12,
            Rule::NoSession => 13,
            Rule::QueryNotGranted => 14,
            Rule::BadArguments => 15,
            Rule::AnswerTooLarge => 16,
            Rule::TooManySessions => 17,
            Rule::StaleAtPubd => 20,
            Rule::TemplateNotGranted => 21,
            Rule::TemplateUnpublished => 22,
            Rule::StaleAtLog => 30,
            Rule::LogNotGranted => 31,
            Rule::LogTooLong => 32,
        }
    }
}
