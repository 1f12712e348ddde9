//! The limits of a site and of its runs.

/// Services that a configuration may declare.
pub const MOST_SERVICES: usize = 64;
/// Database proxies that a configuration may declare.
pub const MOST_PROXIES: usize = 16;
/// Tables that a proxy may have.
pub const MOST_TABLES: usize = 32;
/// Columns that a table may have, and that a SELECT may list.
pub const MOST_COLUMNS: usize = 16;
/// Conditions that a statement may have.
pub const MOST_CONDITIONS: usize = 16;
/// Queries that a proxy may have.
pub const MOST_QUERIES: usize = 256;
/// The greatest number that a query may have; the least is 0.
pub const GREATEST_QUERY: u32 = 65_535;
/// Parameters that a query may have, numbered from 1.
pub const MOST_PARAMETERS: usize = 16;
/// The greatest number of rows to which a SELECT may be limited.
pub const GREATEST_LIMIT: u32 = 1_000_000_000;
/// Templates that a configuration may declare.
pub const MOST_TEMPLATES: usize = 64;
/// Bytes that an edition of a template may have.
pub const LONGEST_TEMPLATE: usize = 262_144;
/// Editions that a template may have; they count from 1.
pub const MOST_EDITIONS: u32 = 1_000_000;
/// Doors through which a run may take connections.
pub const MOST_DOORS: usize = 64;
/// Connections that a run may serve.
pub const MOST_CONNECTIONS: u32 = 1_000_000;
/// Incarnations that a service may have; they count from 1.
pub const MOST_INCARNATIONS: u32 = 1_000_000;
/// Sessions that an incarnation may open at a proxy; they count from 0.
pub const MOST_SESSIONS: u32 = 65_536;
/// The greatest number of tries after which a service is given up.
pub const GREATEST_RETRY: u16 = 1_000;
/// The number of tries after which a service is given up, where the configuration has none.
pub const DEFAULT_RETRY: u16 = 3;
/// Bytes of a configuration.
pub const LONGEST_CONFIGURATION: usize = 4_194_304;
/// Bytes of a line of a configuration, without its end.
pub const LONGEST_LINE: usize = 65_536;
/// Bytes of a script.
pub const LONGEST_SCRIPT: usize = 16_777_216;
/// The greatest length that a frame may carry: the bytes of its kind and payload. The least is 1.
pub const LONGEST_FRAME: usize = 1_048_576;
/// Frames of one dialog that are answered; the next one ends its incarnation.
pub const MOST_FRAMES: usize = 4_096;
/// Bytes of a name or an identifier.
pub const LONGEST_NAME: usize = 64;
/// Bytes of a path that a service owns, and of a request's query string.
pub const LONGEST_PATH: usize = 1_024;
/// Bytes of the content of a request.
pub const LONGEST_CONTENT: usize = 262_144;
/// Bytes of a request's head, with its empty line.
pub const LONGEST_HEAD: usize = 16_384;
/// Fields of a request's head.
pub const MOST_FIELDS: usize = 64;
/// Bytes of one text that a service logs.
pub const LONGEST_LOG: usize = 1_024;
