//! The site of a drill.

/// The configuration of a drill's site: a proxy with five queries, two services and two templates.
pub const SITE: &[u8] = b"okws 1\n\
proxy main\n\
table main msgs id INT KEY who TEXT note TEXT\n\
row main msgs 1 'ann' 'hi'\n\
row main msgs 2 'bob' 'yo'\n\
query main 1 SELECT id, who FROM msgs ORDER BY id\n\
query main 2 INSERT INTO msgs (id, who, note) VALUES (?1, ?2, ?3)\n\
query main 3 DELETE FROM msgs WHERE id = ?1\n\
query main 4 UPDATE msgs SET note = ?1 WHERE note = 'hi'\n\
query main 5 SELECT id FROM msgs WHERE note = 'hi'\n\
service guest ./svc_guest\n\
service other ./svc_probe\n\
uri /guest guest\n\
uri /other other\n\
grant guest main 1 2 3 4 5\n\
grant other main 1\n\
template page\n\
template secret\n\
read guest page\n\
log guest\n";

/// The number of the first service that the site declares, `guest`.
pub const GUEST: u16 = 0;
/// The number of the second one, `other`.
pub const OTHER: u16 = 1;
/// The number of the template `page`.
pub const PAGE: u16 = 0;
/// The number of the proxy `main`.
pub const MAIN: u16 = 0;
