//! Names as the library takes them: as text alone.
ghost use Rattle.std.specs.Prelude.{◌≡◌, IfOk, IfErr, OnOk, OnErr, string_bytes};
ghost use Rattle.std.specs.Str.{IsUtf8};
ghost use Rattle.std.specs.Path.{path_join};

use crate::lack::Lack;
use bstr::ByteSlice;
use std::alloc::Global;
use std::path::Path;

/// The bytes as text, or `NotText` exactly where they are none.
pub fn text(bytes: &[u8]) -> Result<&str, Lack>
    ensures same { IfOk result (λ text. text.now ≡ bytes.now) }
    ensures not_text { IfErr result (λ lack. lack ≡ Lack.NotText) }
    ensures good { OnOk result (IsUtf8 bytes.now) }
    ensures bad { OnErr result (IsUtf8 bytes.now → ⊥) }
{
    bytes.to_str().map_err(|_| Lack::NotText)
}

/// The name of what `path` means from the directory `dir`, which may be any bytes where the path begins with `/`.
/// Otherwise `NotText` where `dir` isn't UTF-8. `NoMemory` where there is no memory for the name.
#[tactic(auto, using(std::proofs::lemmas::Paths::path_join_absolute))]
pub fn joined(alloc: Global, dir: &[u8], path: &str) -> Result<String, Lack>
    ensures { IfOk result (λ whole. string_bytes whole ≡ path_join dir.now path.now) }
{
    if Path::new(path).is_absolute() {
        return Ok(String::from_str(alloc, path)?);
    }
    Ok(Path::new(text(dir)?).join(alloc, path)?.into_string())
}
