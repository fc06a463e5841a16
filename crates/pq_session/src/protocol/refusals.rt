//! The errors of responses, with their codes and messages.
ghost use Rattle.std.specs.Prelude.{◌≡◌};
ghost use Rattle.pq_session.specs.Reply.{error_code, error_message};

/// The error of a refused request (JSON-RPC 2.0, "Error object"; LSP 3.17, "ErrorCodes").
#[derive(Clone, Copy)]
pub(crate) enum Refusal {
    /// The body is not JSON.
    ParseError,
    /// The body is not a message, or a request that the session's phase does not allow.
    InvalidRequest,
    /// The method is unknown.
    MethodNotFound,
    /// A parameter is missing or of another kind, or the URI names no file.
    InvalidParams,
    /// An allocation failed.
    OutOfMemory,
    /// The request came before `initialize`.
    NotInitialized,
    /// An edit was made before the answer was found.
    ContentModified,
    /// The client withdrew the request.
    RequestCancelled,
}

impl Refusal {
    /// The code of the error.
    pub(crate) fn code(self) -> i64
        ensures { result ≡ error_code self }
    {
        match self {
            Refusal::ParseError => -32700,
            Refusal::InvalidRequest => -32600,
            Refusal::MethodNotFound => -32601,
            Refusal::InvalidParams => -32602,
            Refusal::OutOfMemory => -32603,
            Refusal::NotInitialized => -32002,
            Refusal::ContentModified => -32801,
            Refusal::RequestCancelled => -32800,
        }
    }

    /// The message of the error.
    pub(crate) fn message(self) -> &'static str
        ensures { result.now ≡ error_message self }
    {
        match self {
            Refusal::ParseError => "parse error",
            Refusal::InvalidRequest => "invalid request",
            Refusal::MethodNotFound => "method not found",
            Refusal::InvalidParams => "invalid params",
            Refusal::OutOfMemory => "out of memory",
            Refusal::NotInitialized => "not initialized",
            Refusal::ContentModified => "content modified",
            Refusal::RequestCancelled => "request cancelled",
        }
    }
}
