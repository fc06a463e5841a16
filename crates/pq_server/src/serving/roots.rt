//! The line of a session whose root is another folder than that of the library.
//!
//! The files of the library have names relative to its folder, and those that a client opens have
//! names relative to its root. So the two mean the same files only where these are one folder.
use log::{Log, warn};
use pq_hall::Client;
use pq_session::Root;

/// The folder that the root of a session is compared with, once.
#[derive(Drop)]
pub(crate) struct RootCheck<'a> {
    client: Client,
    /// The absolute path of the folder of the library, until the root was seen.
    folder: Option<&'a str>,
}

impl<'a> RootCheck<'a> {
    /// The check of the session of `client`. `folder` is the absolute path of the folder of the library,
    /// if there is one.
    pub(crate) fn new(client: Client, folder: Option<&'a str>) -> RootCheck<'a> {
        RootCheck { client, folder }
    }

    /// Leaves a line if `root` names another folder than that of the library. The first root that is
    /// there is compared, and no later one. A client that names no root gets no line.
    pub(crate) fn look<H: Log>(&mut self, rt: &H, root: Option<&Root>) {
        let Some(root) = root else {
            return;
        };
        let Some(folder) = self.folder.take() else {
            return;
        };
        let folder = folder.trim_end_matches('/');
        let root = root.path();
        if root.is_empty() || root == folder {
            return;
        }
        let number = self.client.id().number();
        // A client chose these characters: those that could end the line are escaped.
        let root = root.escape_debug();
        warn!(rt; target: "pq_server",
            "client {number}: the root folder {root} is not the library's folder {folder}"
        );
    }
}
