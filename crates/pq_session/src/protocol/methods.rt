//! The methods of requests and of notifications, by their names.
ghost use Rattle.std.specs.Prelude.{◌≡◌};
ghost use Rattle.pq_session.specs.Session.{query_method, request_method, notification_method};

/// The method of a request that the sources answer.
#[derive(Clone, Copy)]
pub(crate) enum QueryMethod {
    /// `textDocument/diagnostic`
    DocumentDiagnostic,
    /// `textDocument/documentSymbol`
    DocumentSymbol,
    /// `textDocument/definition`
    Definition,
    /// `proto/descriptor`
    Descriptor,
}

impl QueryMethod {
    /// The query method of this name.
    fn named(name: &str) -> Option<QueryMethod>
        ensures { result ≡ query_method name.now }
    {
        match name {
            "textDocument/diagnostic" => Some(QueryMethod::DocumentDiagnostic),
            "textDocument/documentSymbol" => Some(QueryMethod::DocumentSymbol),
            "textDocument/definition" => Some(QueryMethod::Definition),
            "proto/descriptor" => Some(QueryMethod::Descriptor),
            _ => None,
        }
    }
}

/// The method of a request.
#[derive(Clone, Copy)]
pub(crate) enum RequestMethod {
    /// `initialize`
    Initialize,
    /// `shutdown`
    Shutdown,
    /// A method that the sources answer.
    Query(QueryMethod),
}

impl RequestMethod {
    /// The request method of this name. The names of notifications are unknown.
    pub(crate) fn named(name: &str) -> Option<RequestMethod>
        ensures { result ≡ request_method name.now }
    {
        match name {
            "initialize" => Some(RequestMethod::Initialize),
            "shutdown" => Some(RequestMethod::Shutdown),
            _ => QueryMethod::named(name).map(RequestMethod::Query),
        }
    }
}

/// The method of a notification.
#[derive(Clone, Copy)]
pub(crate) enum NotificationMethod {
    /// `exit`
    Exit,
    /// `textDocument/didOpen`
    DidOpen,
    /// `textDocument/didChange`
    DidChange,
    /// `proto/removeFile`
    RemoveFile,
    /// `$/cancelRequest`
    CancelRequest,
}

impl NotificationMethod {
    /// The notification method of this name. The names of requests are unknown.
    pub(crate) fn named(name: &str) -> Option<NotificationMethod>
        ensures { result ≡ notification_method name.now }
    {
        match name {
            "exit" => Some(NotificationMethod::Exit),
            "textDocument/didOpen" => Some(NotificationMethod::DidOpen),
            "textDocument/didChange" => Some(NotificationMethod::DidChange),
            "proto/removeFile" => Some(NotificationMethod::RemoveFile),
            "$/cancelRequest" => Some(NotificationMethod::CancelRequest),
            _ => None,
        }
    }
}
