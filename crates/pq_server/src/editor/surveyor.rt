//! The surveyor of an editor's session: it answers the requests for the diagnostics of all files
//! (LSP 3.17, "Workspace Diagnostics").
//!
//! It is a client of the hall of its own, as the pusher is, and asks for several lists at a time. An edit
//! that comes while it asks overtakes its requests. It asks for these lists again, after the others. So
//! the lists of a report may be of several revisions, and each has the number of its own.
//!
//! It keeps the list of each file that it has reported last. If the editor has that list, and the file has
//! the same one now, the report says that the list is unchanged.
use crate::editor::desk::Desk;
use crate::editor::disk::Disk;
use crate::editor::files::{Files, Shown};
use crate::editor::line::{Handed, Line};
use crate::serving::floor::{Floor, NoText};
use crossbeam_channel::Receiver;
use pq_core::Label;
use pq_editor::{FileFault, FileReport, fault_list, workspace_text};
use pq_mail::Post;
use pq_session::{DiagnosticList, Memory, ScriptFault, diagnostics_of};
use pq_view::Text;
use std::alloc::Global;
use std::collections::{BTreeMap, VecDeque};
use std::io::Write;
use std::mem;
use std::sync::{Mutex, Wait};
use std::thread::Threads;
use std::time::Clock;

/// How many lists are asked for at a time.
const AT_ONCE: usize = 16;

/// How many times a list is asked for. A file whose list does not come is not in the report.
const TRIES: usize = 8;

/// A file whose diagnostics are reported.
#[derive(Drop)]
pub(crate) struct Surveyed {
    /// Its URI, as the editor is to see it.
    pub(crate) uri: String,
    /// Its name.
    pub(crate) name: Text,
    /// The version of its document, if it is open and the editor gave one.
    pub(crate) version: Option<i64>,
    /// Why its text is not read, if it is not: then its diagnostics are this alone.
    pub(crate) fault: Option<FileFault>,
    /// The `resultId` of the list that the editor has of it.
    pub(crate) has: Option<String>,
}

/// A request for the diagnostics of all files.
#[derive(Drop)]
pub(crate) struct Survey {
    /// The label of the request.
    pub(crate) label: Label,
    /// The revision of the last edit before it. Files that are not read have it as the number of their
    /// lists.
    pub(crate) revision: u64,
    /// The files, in the order of the report.
    pub(crate) files: Vec<Surveyed>,
}

/// A file of a survey, with its list, if that has come.
#[derive(Drop)]
struct Asking {
    file: Surveyed,
    list: Option<DiagnosticList>,
}

/// A list that was asked for.
#[derive(Drop)]
struct Owed<Q> {
    /// The index of the file in the survey.
    place: usize,
    receipt: Q,
}

/// The list of a file, with the number by which it is reported.
#[derive(Drop)]
struct Listed {
    result: u64,
    text: String,
}

/// What the surveyor holds: its line, its end that takes, the files, and what it has reported.
#[derive(Drop)]
struct Surveyor<'a, F: Floor<H>, H> {
    rt: &'a H,
    alloc: Global,
    floor: &'a F,
    line: Line<'a, F, H>,
    take: F::Take,
    places: Shown<'a, H>,
    /// The list of each file that was reported last, by the name of the file.
    reported: BTreeMap<String, Listed>,
}

impl<'a, F: Floor<H>, H: Wait> Surveyor<'a, F, H> {
    /// A surveyor that has reported nothing, for the client of `line`, of which `take` is the end that
    /// takes.
    fn new(
        rt: &'a H,
        alloc: Global,
        floor: &'a F,
        line: Line<'a, F, H>,
        take: F::Take,
        files: &'a Mutex<Files>,
    ) -> Surveyor<'a, F, H> {
        Surveyor {
            rt,
            alloc,
            floor,
            line,
            take,
            places: Shown { rt, files },
            reported: BTreeMap::new(alloc),
        }
    }

    /// The result of the survey of `files` at `revision`. `None` if the client was closed.
    fn survey(
        &mut self,
        files: Vec<Surveyed>,
        revision: u64,
    ) -> Result<Option<String>, ScriptFault> {
        let mut asked = asked_of(self.alloc, files)?;
        if !self.ask_all(&mut asked)? {
            return Ok(None);
        }
        let reports = self.reports_of(asked, revision)?;
        Ok(Some(workspace_text(self.alloc, &reports)?))
    }

    /// Asks for the lists of `asked`, for each until it comes and `TRIES` times at most. Returns whether
    /// the surveyor goes on.
    fn ask_all(&mut self, asked: &mut Vec<Asking>) -> Result<bool, ScriptFault> {
        for _ in 0..TRIES {
            let places = missing_of(self.alloc, asked.as_slice())?;
            if places.is_empty() {
                break;
            }
            if !self.ask_each(asked, &places)? {
                return Ok(false);
            }
        }
        Ok(true)
    }

    /// Asks for the lists of `asked` at `places`, some at a time, and keeps those that come. Returns
    /// whether the surveyor goes on.
    fn ask_each(&mut self, asked: &mut Vec<Asking>, places: &[usize]) -> Result<bool, ScriptFault> {
        let mut owed = VecDeque::new(self.alloc);
        for place in places {
            if owed.len() >= AT_ONCE && !self.take_next(asked, &mut owed)? {
                return Ok(false);
            }
            if !self.ask(asked.as_slice(), *place, &mut owed)? {
                return Ok(false);
            }
        }
        for _ in 0..AT_ONCE {
            if owed.is_empty() {
                break;
            }
            if !self.take_next(asked, &mut owed)? {
                return Ok(false);
            }
        }
        Ok(true)
    }

    /// Asks for the list of the file at `place`. Returns whether the surveyor goes on.
    fn ask(
        &mut self,
        asked: &[Asking],
        place: usize,
        owed: &mut VecDeque<Owed<F::Receipt>>,
    ) -> Result<bool, ScriptFault> {
        let Some(asking) = asked.get(place) else {
            return Ok(true);
        };
        let request = diagnostics_of(self.alloc, asking.file.name.as_str())?;
        let Handed::Asked(receipt) = self.line.hand_in(Post::Ask(request))? else {
            return Ok(false);
        };
        match owed.push_back(Owed { place, receipt }) {
            Ok(()) => Ok(true),
            Err(_) => Err(ScriptFault::Memory),
        }
    }

    /// Takes the list that was asked for first of those of `owed`, and keeps it. Returns whether the
    /// surveyor goes on.
    ///
    /// A list does not come where an edit has overtaken its request, or where an allocation failed.
    fn take_next(
        &mut self,
        asked: &mut Vec<Asking>,
        owed: &mut VecDeque<Owed<F::Receipt>>,
    ) -> Result<bool, ScriptFault> {
        let Some(Owed { place, receipt }) = owed.pop_front() else {
            return Ok(true);
        };
        let client = self.line.client();
        match self.floor.list(
            self.rt,
            self.alloc,
            client,
            &mut self.take,
            &receipt,
            &self.places,
        ) {
            Ok(Some(list)) => keep(asked, place, list),
            Err(NoText::Closed) => return Ok(false),
            _ => {}
        }
        Ok(true)
    }

    /// The reports of the files of `asked`, but for those whose lists have not come. `revision` is that of
    /// the survey. What was reported of files that are not in this survey is forgotten.
    fn reports_of(&mut self, asked: Vec<Asking>, revision: u64) -> Result<Vec<FileReport>, Memory> {
        let mut before = mem::replace(&mut self.reported, BTreeMap::new(self.alloc));
        let mut reports = Vec::new(self.alloc);
        for asking in asked {
            let last = before.remove(asking.file.name.as_str());
            if let Some(report) = self.report(asking, last, revision)? {
                reports.push(report)?;
            }
        }
        Ok(reports)
    }

    /// The report of the file of `asking`, of which `last` was reported last. `None` if its list has not
    /// come.
    fn report(
        &mut self,
        asking: Asking,
        last: Option<Listed>,
        revision: u64,
    ) -> Result<Option<FileReport>, Memory> {
        let Asking { file, list } = asking;
        match listed_of(self.alloc, file.fault, list, revision)? {
            Some(listed) => {
                let report = report_of(self.alloc, &file, &listed, &last)?;
                self.note(&file, listed)?;
                Ok(Some(report))
            }
            None => {
                if let Some(last) = last {
                    self.note(&file, last)?;
                }
                Ok(None)
            }
        }
    }

    /// Keeps what was reported last of `file`.
    fn note(&mut self, file: &Surveyed, listed: Listed) -> Result<(), Memory> {
        let name = String::from_str(self.alloc, file.name.as_str())?;
        self.reported.insert(name, listed)?;
        Ok(())
    }
}

/// `files`, of which no list has come.
fn asked_of(alloc: Global, files: Vec<Surveyed>) -> Result<Vec<Asking>, Memory> {
    let mut asked = Vec::new(alloc);
    for file in files {
        asked.push(Asking { file, list: None })?;
    }
    Ok(asked)
}

/// The indexes of those files of `asked` that are read and whose lists have not come.
fn missing_of(alloc: Global, asked: &[Asking]) -> Result<Vec<usize>, Memory> {
    let mut places = Vec::new(alloc);
    for (place, asking) in asked.iter().enumerate() {
        if asking.list.is_none() && asking.file.fault.is_none() {
            places.push(place)?;
        }
    }
    Ok(places)
}

/// Keeps `list` for the file of `asked` at `place`.
fn keep(asked: &mut Vec<Asking>, place: usize, list: DiagnosticList) {
    if let Some(asking) = asked.get_mut(place) {
        asking.list = Some(list);
    }
}

/// The list of a file: that which says why it is not read, at `revision`, or `list` at its own revision.
fn listed_of(
    alloc: Global,
    fault: Option<FileFault>,
    list: Option<DiagnosticList>,
    revision: u64,
) -> Result<Option<Listed>, Memory> {
    if let Some(fault) = fault {
        return Ok(Some(Listed {
            result: revision,
            text: fault_list(alloc, fault)?,
        }));
    }
    match list {
        Some(list) => Ok(Some(Listed {
            result: list.revision(),
            text: String::from_str(alloc, list.text())?,
        })),
        None => Ok(None),
    }
}

/// Whether an editor that has the list of the number `has` has the list `text`: `last` was reported last,
/// with that number and this text.
fn is_known(has: &Option<String>, last: &Option<Listed>, text: &str) -> bool {
    match (has, last) {
        (Some(has), Some(last)) => {
            last.text.as_str() == text && has.as_str().parse::<u64>().ok() == Some(last.result)
        }
        _ => false,
    }
}

/// The report of `file`, whose list is `listed`, and of which `last` was reported last.
fn report_of(
    alloc: Global,
    file: &Surveyed,
    listed: &Listed,
    last: &Option<Listed>,
) -> Result<FileReport, Memory> {
    let text = listed.text.as_str();
    let list = if is_known(&file.has, last, text) {
        None
    } else {
        Some(String::from_str(alloc, text)?)
    };
    Ok(FileReport {
        uri: String::from_str(alloc, file.uri.as_str())?,
        result: listed.result,
        list,
        version: file.version,
    })
}

/// Answers the requests of `surveys` by the client of `line`, one after the other, until there are no
/// more or that client is closed. The desk posts each answer.
///
/// An allocation failure ends it, and what ends the desk does.
pub(crate) fn survey_all<'a, F, H, W>(
    rt: &'a H,
    alloc: Global,
    floor: &'a F,
    desk: &Mutex<Desk<'_, F, H, W>>,
    files: &'a Mutex<Files>,
    line: Line<'a, F, H>,
    take: F::Take,
    surveys: Receiver<Survey>,
) -> Result<(), ScriptFault>
where
    F: Floor<H>,
    H: Threads + Wait + Clock + Disk + AllocGlobal + Copy + Drop + Send + Sync + 'static,
    W: Write + Copy,
{
    let mut surveyor = Surveyor::new(rt, alloc, floor, line, take, files);
    for _ in rt.forever() {
        let Ok(
            Survey {
                label,
                revision,
                files,
            },
        ) = surveys.recv(rt)
        else {
            return Ok(());
        };
        let Some(text) = surveyor.survey(files, revision)? else {
            return Ok(());
        };
        let goes_on = desk.lock(rt).answer(label, text.as_str())?;
        if !goes_on {
            return Ok(());
        }
    }
    unreachable!()
}
