//! The theorem about texts into which printed lists are put: the contract of a function with an empty
//! body.
ghost use Rattle.std.specs.Prelude.{◌≡◌, List, Option};
ghost use Rattle.std.specs.List.{All};
ghost use Rattle.serde_json.specs.Data.{Data};
ghost use Rattle.serde_json.specs.Written.{compact_text};
ghost use Rattle.pq_editor.specs.Reports.{HasList, workspace_data, workspace_text};
ghost use Rattle.pq_editor.specs.declared.reports.FileReport.{FileReport};

/// Where each list of a report is the compact text of data, the report is the compact text of the
/// report with that data.
pub fn workspace_spliced()
    // The report into which printed lists are put is the compact text of the report with that data.
    ensures { (list_of : FileReport → Option Data) (reports : List FileReport) →
        All (HasList list_of) reports →
        workspace_text reports ≡ compact_text (workspace_data list_of reports) }
{}
