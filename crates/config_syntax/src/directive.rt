//! Directives.

ghost use Rattle.std.specs.Prelude.{◌≡◌};
ghost use Rattle.config_syntax.specs.Declarations.{directive_of};

use plain_text::parts::is_same;

/// What a line declares, by its first word.
#[derive(Clone, Copy)]
pub enum Directive {
    Proxy,
    Table,
    Row,
    Query,
    Service,
    Retry,
    Uri,
    Grant,
    Template,
    Read,
    Log,
}

impl Directive {
    /// The directive that a word is.
    pub fn of(word: &[u8]) -> Option<Directive>
        ensures { result ≡ directive_of word.now }
    {
        if is_same(word, b"proxy") {
            Some(Directive::Proxy)
        } else if is_same(word, b"table") {
            Some(Directive::Table)
        } else if is_same(word, b"row") {
            Some(Directive::Row)
        } else if is_same(word, b"query") {
            Some(Directive::Query)
        } else if is_same(word, b"service") {
            Some(Directive::Service)
        } else if is_same(word, b"retry") {
            Some(Directive::Retry)
        } else if is_same(word, b"uri") {
            Some(Directive::Uri)
        } else if is_same(word, b"grant") {
            Some(Directive::Grant)
        } else if is_same(word, b"template") {
            Some(Directive::Template)
        } else if is_same(word, b"read") {
            Some(Directive::Read)
        } else if is_same(word, b"log") {
            Some(Directive::Log)
        } else {
            None
        }
    }
}
