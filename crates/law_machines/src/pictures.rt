//! Frames, shots and the cursor.
ghost use Rattle.law_machines.specs.Frames.{FramesFinish, CursorStands};
ghost use Rattle.law_machines.specs.Shots.{ShotsAreFinished};

/// The finished frame changes only when a frame ends, once in each frame of the 6845.
pub fn frames_finish()
    ensures { FramesFinish }
{
    crtc6845::vertical_sync_comes_in_each_frame();
    crtc6845::no_sync_beyond_the_rows();
}

/// Over whole runs of the host, a shot takes the last frame that was finished before its tick, or a
/// black one.
pub fn shots_are_finished()
    ensures { ShotsAreFinished }
{
    frames_finish();
}

/// The cursor is at its address.
pub fn the_cursor_stands()
    ensures { CursorStands }
{
    crtc6845::shown_addresses_count();
}
