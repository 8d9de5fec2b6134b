//! Each statement that is run. A value stands for a place of its text, and is never part of one.

/// The tables of a new store, and its mark.
pub const MAKE: &str = "CREATE TABLE schema_mark (
  number INTEGER NOT NULL,
  PRIMARY KEY (number)
) STRICT;
CREATE TABLE project (
  owner TEXT NOT NULL,
  name TEXT NOT NULL,
  next_submission INTEGER NOT NULL,
  PRIMARY KEY (owner, name)
) STRICT;
CREATE TABLE member (
  owner TEXT NOT NULL,
  project TEXT NOT NULL,
  place INTEGER NOT NULL,
  member TEXT NOT NULL,
  PRIMARY KEY (owner, project, member),
  FOREIGN KEY (owner, project) REFERENCES project (owner, name)
) STRICT;
CREATE TABLE version (
  owner TEXT NOT NULL,
  project TEXT NOT NULL,
  number INTEGER NOT NULL,
  kind INTEGER NOT NULL CHECK (kind IN (1, 2, 3)),
  submission INTEGER NOT NULL,
  by_member TEXT NOT NULL,
  body BLOB NOT NULL,
  PRIMARY KEY (owner, project, number),
  FOREIGN KEY (owner, project) REFERENCES project (owner, name)
) STRICT;
CREATE TABLE submission (
  owner TEXT NOT NULL,
  project TEXT NOT NULL,
  number INTEGER NOT NULL,
  by_member TEXT NOT NULL,
  body BLOB NOT NULL,
  PRIMARY KEY (owner, project, number),
  FOREIGN KEY (owner, project) REFERENCES project (owner, name)
) STRICT;
CREATE TABLE reply (
  caller TEXT NOT NULL,
  id TEXT NOT NULL,
  act BLOB NOT NULL,
  answer BLOB NOT NULL,
  PRIMARY KEY (caller, id)
) STRICT;
CREATE TABLE judged (
  owner TEXT NOT NULL,
  project TEXT NOT NULL,
  number INTEGER NOT NULL,
  against INTEGER NOT NULL,
  PRIMARY KEY (owner, project, number),
  FOREIGN KEY (owner, project, number) REFERENCES version (owner, project, number)
) STRICT;
INSERT INTO schema_mark (number) VALUES (2);";

/// What a store of mark 1 lacks.
pub const MAKE_JUDGED: &str = "CREATE TABLE judged (
  owner TEXT NOT NULL,
  project TEXT NOT NULL,
  number INTEGER NOT NULL,
  against INTEGER NOT NULL,
  PRIMARY KEY (owner, project, number),
  FOREIGN KEY (owner, project, number) REFERENCES version (owner, project, number)
) STRICT;
UPDATE schema_mark SET number = 2;";

/// How many things the store has that were made in it.
pub const OBJECTS: &str = "SELECT count(*) FROM sqlite_schema";

pub const MARKS: &str = "SELECT number FROM schema_mark LIMIT 2";

/// The projects in order.
pub const PROJECTS: &str = "SELECT owner, name FROM project ORDER BY owner, name";

/// The numbers that wait in a project, and no more than show that there are too many.
pub const WAITING: &str =
    "SELECT number FROM submission WHERE owner = ?1 AND project = ?2 ORDER BY number LIMIT 33";

pub const NEXT: &str = "SELECT next_submission FROM project WHERE owner = ?1 AND name = ?2";

/// The members of a project, and no more than show that there are too many.
pub const MEMBERS: &str =
    "SELECT place, member FROM member WHERE owner = ?1 AND project = ?2 ORDER BY place LIMIT 65";

/// The versions of a project, each with what it was judged against or with nothing, and no more than show that
/// there are too many.
pub const VERSIONS: &str = "SELECT v.number, v.kind, v.submission, v.by_member, j.against
FROM version v LEFT JOIN judged j ON j.owner = v.owner AND j.project = v.project AND j.number = v.number
WHERE v.owner = ?1 AND v.project = ?2 ORDER BY v.number LIMIT 1025";

/// The versions of a project in a store of mark 1.
pub const OLD_VERSIONS: &str = "SELECT number, kind, submission, by_member FROM version
WHERE owner = ?1 AND project = ?2 ORDER BY number LIMIT 1025";

pub const TEXT: &str = "SELECT body FROM version WHERE owner = ?1 AND project = ?2 AND number = ?3";

pub const SUBMISSION: &str =
    "SELECT by_member, body FROM submission WHERE owner = ?1 AND project = ?2 AND number = ?3";

pub const KEPT: &str = "SELECT act, answer FROM reply WHERE caller = ?1 AND id = ?2";

pub const REPLIES: &str = "SELECT count(*) FROM reply WHERE caller = ?1";

pub const LAST_VERSION: &str = "SELECT max(number) FROM version WHERE owner = ?1 AND project = ?2";

pub const ADD_PROJECT: &str =
    "INSERT INTO project (owner, name, next_submission) VALUES (?1, ?2, 1)";

/// The owner as the first member.
pub const ADD_OWNER: &str =
    "INSERT INTO member (owner, project, place, member) VALUES (?1, ?2, 1, ?1)";

/// The first version.
pub const ADD_FIRST: &str =
    "INSERT INTO version (owner, project, number, kind, submission, by_member, body)
VALUES (?1, ?2, 1, 1, 0, ?1, ?3)";

/// A member behind the others, where he isn't one.
pub const ADD_MEMBER: &str = "INSERT OR IGNORE INTO member (owner, project, place, member)
SELECT ?1, ?2, count(*) + 1, ?3 FROM member WHERE owner = ?1 AND project = ?2";

/// A submission under the project's next number.
pub const ADD_SUBMISSION: &str = "INSERT INTO submission (owner, project, number, by_member, body)
SELECT owner, name, next_submission, ?3, ?4 FROM project WHERE owner = ?1 AND name = ?2";

pub const COUNT_SUBMISSION: &str =
    "UPDATE project SET next_submission = next_submission + 1 WHERE owner = ?1 AND name = ?2";

pub const DROP_SUBMISSION: &str =
    "DELETE FROM submission WHERE owner = ?1 AND project = ?2 AND number = ?3";

/// A version that has the text of a submission.
pub const ADD_VERSION: &str =
    "INSERT INTO version (owner, project, number, kind, submission, by_member, body)
SELECT owner, project, ?4, ?5, number, ?6, body FROM submission
WHERE owner = ?1 AND project = ?2 AND number = ?3";

pub const ADD_JUDGED: &str =
    "INSERT INTO judged (owner, project, number, against) VALUES (?1, ?2, ?3, ?4)";

pub const ADD_REPLY: &str = "INSERT INTO reply (caller, id, act, answer) VALUES (?1, ?2, ?3, ?4)";
