// The document of a frame file.
ghost use Rattle.std.specs.Prelude.{◌≡◌};
ghost use Rattle.toml.specs.View.{table_view};
ghost use Rattle.gd_keys.specs.Documents.{document};
ghost use Rattle.gd_base.specs.Causes.{Gives};
ghost use Rattle.gd_keys.specs.Rules.{key_cause};

use crate::{KeyFault, Rule};
use std::alloc::Global;
use toml::Table;

/// The table of a TOML document in UTF-8. Whatever `toml` refuses but for want of memory is `Rule::Document`.
pub fn read_document(alloc: Global, bytes: &[u8]) -> Result<Table, KeyFault>
    ensures { Gives key_cause (λ t. table_view t) result (document bytes.now) }
{
    match toml::table_from_slice(alloc, bytes) {
        Ok(table) => Ok(table),
        Err(cause) => {
            if cause.is_memory() {
                Err(KeyFault::Memory)
            } else {
                Err(KeyFault::Rule(Rule::Document))
            }
        }
    }
}
