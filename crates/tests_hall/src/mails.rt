//! pq_mail: inboxes and outboxes, call by call, and between two threads.
//!
//! A script has a line `CALL => ANSWER` for each call of the two ends of one mailbox. `drop END` gives
//! an end up; a call of an end that was given up answers `no end`.
mod inboxes;
mod outboxes;
