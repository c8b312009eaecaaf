ghost use Rattle.std.specs.Prelude.{◌≡◌, ℕ, ◌+◌, ◌^◌, ◌<◌, ◌≤◌, length};
ghost use Rattle.mb_geom.specs.Run.{IsRun, IsRunPut};

/// Copies bytes of a file from a place on, and zeros for those behind its end.
pub(crate) fn read_run(file: &[u8], at: usize, run: &mut [u8])
    ensures { IsRun file.now at run.new }
{
    let from = at.min(file.len());
    let held = run.len().min(file.len() - from);
    run[..held].copy_from_slice(&file[from..from + held]);
    run[held..].fill(0);
}

/// Copies bytes into a file from a place on, without those that come to stand behind its end.
pub(crate) fn put_run(run: &[u8], at: usize, file: &mut [u8])
    ensures { IsRunPut at run.now file.old file.new }
{
    let from = at.min(file.len());
    let held = run.len().min(file.len() - from);
    file[from..from + held].copy_from_slice(&run[..held]);
}
