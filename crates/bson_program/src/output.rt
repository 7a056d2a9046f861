//! The output of a run. A file gets it whole or not at all: it is written to a file beside it, which
//! replaces the file at the end.
ghost use Rattle.std.specs.Prelude.{◌≡◌, codes, IfOk, IfSome, IsOk, IsOkAnd, None};
ghost use Rattle.bson_program.specs.RunFailures.{IsPartialFilePath};

use crate::invocation::STDIO;
use crate::streams::{OutputTarget, OutputWriter};
use std::fs::{File, Metadata, OpenOptions};
use std::io::ErrorKind;
use std::os::unix::fs::{MetadataExt, fchown};
use std::{fs, io, process};

/// The output of a run.
#[derive(Drop)]
pub struct Output {
    pub output_writer: OutputWriter,
    partial_file: Option<PartialFile>,
}

/// The file that is written beside another.
#[derive(Drop)]
struct PartialFile {
    path: String,
    /// The file that it replaces.
    final_path: String,
    /// Whether that file was there before.
    replaces_file: bool,
}

impl Output {
    /// Opens a file, or standard output. A device or a pipe is written as it is.
    pub fn open(rt: &HostRuntime, file_name: &str) -> io::Result<Output>
        ensures direct_stdout { file_name.now ≡ codes "-" → IsOkAnd result (λ output. output.partial_file ≡ None) }
        ensures partial_file_path { IfOk result (λ output. IfSome output.partial_file IsPartialFilePath) }
    {
        if file_name == STDIO {
            return Ok(direct_output(OutputTarget::Stdout(rt.stdout())));
        }
        match fs::metadata(rt, file_name) {
            Ok(old_metadata) if old_metadata.is_file() => open_replacement(
                rt,
                file_name,
                &old_metadata,
            ),
            Err(error) if error.kind() == ErrorKind::NotFound && !is_dangling_link(rt, file_name) =>
                {
                    let final_path = String::from_str(rt.alloc(), file_name)?;
                    open_partial_file(rt, final_path, None)
                }
            _ => Ok(direct_output(OutputTarget::File(File::create(rt, file_name)?))),
        }
    }

    /// The output is whole, and replaces the file.
    pub fn finish(self, rt: &HostRuntime) -> io::Result<()>
        ensures { self.partial_file ≡ None → IsOk result }
    {
        let Output {
            output_writer,
            partial_file,
        } = self;
        let Some(partial_file) = partial_file else {
            return Ok(());
        };
        match move_to_final_path(rt, &partial_file, &output_writer.target) {
            Ok(()) => Ok(()),
            Err(error) => {
                let _ = fs::remove_file(rt, partial_file.path.as_str());
                Err(error)
            }
        }
    }

    /// The output is not whole, and nothing of it stays.
    pub fn discard(self, rt: &HostRuntime) {
        let Output { partial_file, .. } = self;
        if let Some(partial_file) = partial_file {
            let _ = fs::remove_file(rt, partial_file.path.as_str());
        }
    }
}

// Output that is written where it stays.
fn direct_output(target: OutputTarget) -> Output
    ensures { result.partial_file ≡ None }
{
    Output {
        output_writer: OutputWriter::new(target),
        partial_file: None,
    }
}

// Whether a link points to no file; opening it makes that file.
fn is_dangling_link(rt: &HostRuntime, file_name: &str) -> bool {
    match fs::symlink_metadata(rt, file_name) {
        Ok(link_metadata) => link_metadata.is_symlink(),
        Err(_) => false,
    }
}

// Output in place of a file that is there, if that may be written. Links to it stay.
fn open_replacement(
    rt: &HostRuntime,
    file_name: &str,
    old_metadata: &Metadata,
) -> io::Result<Output>
    ensures { IfOk result (λ output. IfSome output.partial_file IsPartialFilePath) }
{
    drop(OpenOptions::new().write(true).open(rt, file_name)?);
    let final_path = fs::canonicalize(rt, file_name)?.into_string();
    open_partial_file(rt, final_path, Some(old_metadata))
}

// Output beside a file, by the process's number, with the rights of the old one.
fn open_partial_file(
    rt: &HostRuntime,
    final_path: String,
    old_metadata: Option<&Metadata>,
) -> io::Result<Output>
    ensures { IfOk result (λ output. IfSome output.partial_file IsPartialFilePath) }
{
    let process_id = process::id(rt.process());
    let path = format!(in rt.alloc(); "{final_path}.{process_id}.part")?;
    let created_file = File::create_new(rt, path.as_str())?;
    if let Some(old_metadata) = old_metadata {
        // (another's file stays another's only where root writes it)
        let _ = fchown(
            &created_file,
            Some(old_metadata.uid()),
            Some(old_metadata.gid()),
        );
        let _ = created_file.set_permissions(old_metadata.permissions());
    }
    let partial_file = PartialFile {
        path,
        final_path,
        replaces_file: old_metadata.is_some(),
    };
    Ok(Output {
        output_writer: OutputWriter::new(OutputTarget::File(created_file)),
        partial_file: Some(partial_file),
    })
}

// Replaces the file with the partial file, once the system has all of it.
fn move_to_final_path(
    rt: &HostRuntime,
    partial_file: &PartialFile,
    target: &OutputTarget,
) -> io::Result<()> {
    if partial_file.replaces_file {
        target.sync()?;
    }
    fs::rename(
        rt,
        partial_file.path.as_str(),
        partial_file.final_path.as_str(),
    )
}
