//! Which changes show a second content, in the pack directories of folders and through links.
use crate::shown_words::{chain, made_all};
use std::test::Fail;
use test_words::{compare, cut, halves};

/// In a folder `/o` with its pack directory, which is watched.
const FOLDER: &str = "\
    put /o/pack/a.idx 1 x, put /o/pack/a.idx 2 x|made made ;\
    put /o/pack/a.idx 1 x, put /o/pack/a.idx 1 y|made second ;\
    put /o/pack/a.pack 1 x, more /o/pack/a.pack y|made second ;\
    put /o/pack/a.pack 1 x, more /o/pack/a.pack |made made ;\
    put /o/pack/a.pack 1 x, take /o/pack/a.pack, put /o/pack/a.pack 1 y|made made second ;\
    put /o/pack/a.pack 1 x, take /o/pack/a.pack, put /o/pack/a.pack 1 x|made made made ;\
    put /o/pack/.idx 1 x, put /o/pack/.idx 1 y|made second ;\
    put /o/pack/a.rev 1 x, put /o/pack/a.rev 1 y|made made ;\
    put /o/a.idx 1 x, put /o/a.idx 1 y|made made ;\
    put /o/pack/a.idx 1 x, put /o/pack/b.idx 1 y, move /o/pack/b.idx /o/pack/a.idx|made made second ;\
    put /o/pack/a.idx 1 x, put /t 1 x, move /t /o/pack/a.idx|made made made ;\
    put /o/pack/a.idx 1 x, put /t 1 y, move /t /o/pack/a.idx|made made second ;\
    put /o/pack/a.idx 1 x, move /o/pack /q, make /o/pack, put /o/pack/a.idx 1 y|made made made second ;\
    put /o/pack/a.idx 1 x, make /q, put /q/a.idx 1 y, move /o/pack /p, move /q /o/pack|made made made made second ;\
    make /o/pack/a.idx, take /o/pack/a.idx, put /o/pack/a.idx 1 x|made made made ;\
    put /o/pack/a.idx 1 x, time /o/pack/a.idx 2|made made ;\
    put /o/pack/a/a.idx 1 x|no ";

/// There the multi-pack index has one content at each time.
const MULTI_INDEX: &str = "\
    put /o/pack/multi-pack-index 1 x, put /o/pack/multi-pack-index 2 y|made made ;\
    put /o/pack/multi-pack-index 1 x, put /o/pack/multi-pack-index 1 y|made second ;\
    put /o/pack/multi-pack-index 1 x, put /o/pack/multi-pack-index 2 y, put /o/pack/multi-pack-index 1 y|made made second ;\
    put /o/pack/multi-pack-index 1 x, put /o/pack/multi-pack-index 2 y, put /o/pack/multi-pack-index 1 x|made made made ;\
    put /o/pack/multi-pack-index 1 x, put /o/pack/multi-pack-index 2 y, time /o/pack/multi-pack-index 1|made made second ";

/// There links lead from a watched path, and to the folders.
const LINKS: &str = "\
    put /t 1 x, link /o/pack/a.idx /t, put /t 1 y|made made second ;\
    put /t 1 x, link /o/pack/a.idx /t, put /t 2 x|made made made ;\
    put /t 1 x, put /u 1 y, link /o/pack/a.idx /t, link /o/pack/a.idx /u|made made made second ;\
    put /t 1 x, link /o/pack/a.idx /t, take /t, put /u 1 y, move /u /t|made made made made second ;\
    link /o/pack/a.idx /t, put /t 1 x, put /t 1 y|made made second ;\
    link /p /o, watch /p, put /o/pack/a.idx 1 x, put /o/pack/a.idx 1 y|made watched made second ;\
    link /p /o, watch /p, put /o/pack/a.idx 1 x, make /q, make /q/pack, put /q/pack/a.idx 1 y, link /p /q|made watched made made made made second ;\
    link /o/pack/a.idx /o/pack/a.idx, put /o/pack/a.idx 1 x|made made ";

/// Folders that are watched later.
const LATER: &str = "\
    make /p, make /p/pack, put /p/pack/a.idx 1 x, put /p/pack/a.idx 1 y, watch /p, put /p/pack/a.idx 1 x|made made made made watched second ;\
    watch /p, make /p, make /p/pack, put /p/pack/a.idx 1 x, put /p/pack/a.idx 1 y|watched made made made second ;\
    watch /o, put /o/pack/a.idx 1 x, watch /o, put /o/pack/a.idx 1 y|watched made watched second ;\
    make /p, make /q, make /q/pack, put /q/pack/a.idx 1 x, watch /p, move /q/pack /p/pack, put /p/pack/a.idx 1 y|made made made made watched made second ";

/// A folder `/s` with no pack directory, or with a link at its place.
const NO_DIRECTORY: &str = "\
    make /s, watch /s, put /s/a 1 x, make /s/pack, put /s/pack/a.idx 1 x, put /s/pack/a.idx 1 y|made watched made made made second ;\
    make /s, watch /s, make /s/pack, take /s/pack, make /s/pack, put /s/pack/a.idx 1 x, put /s/pack/a.idx 1 y|made watched made made made made second ;\
    link /s /w, watch /s, make /w, make /w/pack, put /w/pack/a.idx 1 x, put /w/pack/a.idx 1 y|made watched made made made second ;\
    make /q, make /s, link /s/pack /q, watch /s, put /q/a.idx 1 x, put /q/a.idx 1 y|made made made watched made second ;\
    make /q, make /s, link /s/pack /q, watch /s, put /q/a.idx 1 x, take /q/a.idx, put /t 1 y, move /t /q/a.idx|made made made watched made made made second ;\
    make /q, make /s, link /s/pack /q, watch /s, put /q/a.idx 1 x, put /s/pack 1 z, link /s/pack /q, put /q/a.idx 1 y|made made made watched made made made second ;\
    make /q, put /q/a.idx 1 x, make /r, put /r/a.idx 1 y, make /s, link /s/pack /q, watch /s, take /s/pack, link /s/pack /r|made made made made made made watched made second ;\
    make /u, link /u/pack /o/pack, watch /u, put /o/pack/a.idx 1 x, make /q, link /u/pack /q, put /q/a.idx 1 y|made made watched made made made second ";

/// Files that are moved, grow or get another time in the pack directory.
const CHANGED: &str = "\
    put /o/pack/a.tmp 1 x, move /o/pack/a.tmp /o/pack/a.idx, put /o/pack/a.idx 1 y|made made second ;\
    put /o/pack/a.idx 1 x, move /o/pack/a.idx /o/pack/b.idx, put /o/pack/b.idx 1 y|made made second ;\
    put /o/pack/a.idx 1 x, move /o/pack/a.idx /o/pack/b.idx, put /o/pack/a.idx 1 y|made made second ;\
    put /o/pack/a.idx 1 x, move /o/pack/a.idx /o/pack/a.idx|made made ;\
    put /o/pack/a.idx 1 x, link /l /o/pack/a.idx, more /l y|made made second ;\
    put /o/pack/multi-pack-index 1 x, more /o/pack/multi-pack-index y|made second ;\
    put /o/pack/multi-pack-index 1 x, put /t 2 y, move /t /o/pack/multi-pack-index, time /o/pack/multi-pack-index 1|made made made second ;\
    put /o/pack/multi-pack-index 1 x, time /o/pack/multi-pack-index 2, put /o/pack/multi-pack-index 2 y|made made second ";

/// Changes on the ways of watched paths, and beside them.
const WAYS: &str = "\
    put /t 1 x, link /o/pack/a.idx /t, put /u 1 y, make /q, link /l /u, move /u /v, put /o/pack/b.idx 1 z, put /t 1 y|made made made made made made made second ;\
    put /t 1 x, link /m /t, link /o/pack/a.idx /m, put /u 1 y, link /m /u|made made made made second ;\
    put /t 1 x, link /o/pack/a.idx /t, take /o/pack/a.idx, put /t 1 y, put /o/pack/a.idx 1 y|made made made made second ;\
    put /t 1 x, link /o/pack/a.idx /t, take /o/pack/a.idx, put /o/pack/a.idx 1 x, put /t 1 y, put /o/pack/a.idx 1 y|made made made made made second ;\
    make /q, make /q/pack, put /q/pack/a.idx 1 x, link /m /q, link /p /m, watch /p, make /r, make /r/pack, put /r/pack/a.idx 1 y, link /m /r|made made made made made watched made made made second ;\
    make /q, make /q/pack, put /q/pack/a.idx 1 x, link /m /q, link /p /m, watch /p, make /r, make /r/pack, put /r/pack/a.idx 1 x, link /m /r, put /q/pack/a.idx 1 y, put /r/pack/a.idx 1 y|made made made made made watched made made made made made second ;\
    put /o/pack/a.idx 1 x, move /o /w, put /w/pack/a.idx 1 y, move /w /o|made made made second ;\
    put /o/pack/a.idx 1 x, move /o /w, move /w /o, put /o/pack/a.idx 1 y|made made made second ";

/// Changes of files that links lead to from watched paths, and of what such links are replaced by.
const LINKED_FILES: &str = "\
    link /o/pack/a.idx /t, put /t 1 x, take /t, put /t 1 y|made made made second ;\
    link /o/pack/a.idx /t, put /u 1 x, move /u /t, put /u 1 y, move /u /t|made made made made second ;\
    put /t 1 x, link /o/pack/a.idx /t, more /t y|made made second ;\
    put /t 1 x, link /o/pack/a.idx /t, put /u 1 y, move /u /t|made made made second ;\
    put /t 1 x, link /o/pack/a.idx /t, put /u 1 x, move /u /t, time /t 2, more /t |made made made made made made ;\
    put /t 1 x, link /o/pack/multi-pack-index /t, put /t 2 y, time /t 1|made made made second ;\
    put /t 1 x, link /o/pack/multi-pack-index /t, time /t 2, more /t y|made made made second ;\
    put /t 1 x, link /o/pack/a.rev /t, more /t y|made made made ;\
    make /q, link /o/pack/a.idx /q/b.pack, put /q/b.pack 1 x, more /q/b.pack y|made made made second ;\
    link /o/pack/a.pack /m, link /m /t, put /t 1 x, put /t 1 y|made made made second ;\
    make /e, link /d /e, link /o/pack/a.idx /d/x, put /e/x 1 x, put /e/x 1 y|made made made made second ;\
    put /o/pack/b.idx 1 x, link /o/pack/a.idx /o/pack/b.idx, take /o/pack/a.idx, put /o/pack/a.idx 1 y|made made made second ;\
    link /o/pack/a.idx /o/pack/b.idx, put /o/pack/b.idx 1 x, take /o/pack/a.idx, put /o/pack/a.idx 1 y|made made made second ;\
    link /o/pack/a.idx /t, take /o/pack/a.idx, put /t 1 x, put /o/pack/a.idx 1 y|made made made made ;\
    put /t 1 x, link /o/pack/a.idx /t, put /u 1 y, move /u /o/pack/a.idx|made made made second ;\
    put /t 1 x, link /o/pack/a.idx /t, put /u 1 x, move /u /o/pack/a.idx, put /t 1 y, put /o/pack/a.idx 1 y|made made made made made second ;\
    put /t 1 x, link /m /t, link /o/pack/a.idx /m, put /u 1 y, move /u /m|made made made made second ;\
    put /t 1 x, link /m /t, link /o/pack/a.idx /m, put /m 1 y|made made made second ;\
    link /m /t, link /o/pack/a.idx /m, put /u 1 x, move /u /m, put /t 1 y, put /m 1 y|made made made made made second ";

/// Links that are put at new names.
const NEW_LINKS: &str = "\
    put /t 1 x, link /o/pack/a.idx /t, link /o/pack/b.idx /t, put /t 1 y|made made made second ;\
    put /t 1 x, link /o/pack/a.idx /t, take /o/pack/a.idx, link /o/pack/a.idx /t, put /t 1 y|made made made made second ;\
    put /t 1 x, put /u 1 y, link /o/pack/a.idx /t, take /o/pack/a.idx, link /o/pack/a.idx /u|made made made made second ;\
    put /t 1 x, put /u 1 x, link /o/pack/a.idx /t, take /o/pack/a.idx, link /o/pack/a.idx /u, put /t 1 y, put /u 1 y|made made made made made made second ;\
    put /o/pack/a.idx 1 x, put /t 1 x, link /o/pack/a.idx /t, put /t 1 y|made made made second ;\
    put /o/pack/a.idx 1 x, put /t 1 y, link /o/pack/a.idx /t|made made second ;\
    make /e, link /d /e, put /e/x 1 x, link /o/pack/a.idx /d/x, take /o/pack/a.idx, put /o/pack/a.idx 1 y|made made made made made second ;\
    link /o/pack/a.idx /e/x, make /f, put /f/x 1 x, move /f /e, put /e/x 1 y|made made made made second ;\
    make /e, link /o/pack/a.idx /e, take /o/pack/a.idx, put /o/pack/a.idx 1 x|made made made made ;\
    put /t 1 x, link /o/pack/multi-pack-index /t, put /t 2 y, put /t 1 y|made made made second ;\
    put /t 1 x, link /o/pack/a.rev /t, put /t 1 y|made made made ;\
    link /o/pack/b.idx /o/pack/a.idx, put /t 1 x, link /o/pack/a.idx /t, put /t 1 y|made made made second ;\
    link /o/pack/a.idx /o/pack/a.idx/b, take /o/pack/a.idx, put /o/pack/a.idx 1 x|made made made ;\
    make /s, link /s/pack /o/pack, watch /s, put /t 1 x, link /o/pack/a.idx /t, make /r, put /r/a.idx 1 y, link /s/pack /r|made made watched made made made made second ;\
    make /a, make /a/pack, watch /a, link /a/pack/b.idx /o/pack/c.idx, put /t 1 x, link /o/pack/c.idx /t, take /a/pack/b.idx, put /a/pack/b.idx 1 y|made made watched made made made made second ";

/// Several folders, of which a change touches one or two.
const FOLDERS: &str = "\
    make /a, make /a/pack, watch /a, make /b, make /b/pack, watch /b, put /a/pack/a.idx 1 x, put /b/pack/a.idx 1 y, put /b/pack/a.idx 1 x|made made watched made made watched made made second ;\
    make /a, make /a/pack, watch /a, make /b, make /b/pack, watch /b, make /c, watch /c, link /c/pack /b/pack, put /b/pack/a.idx 1 x, put /a/pack/a.idx 1 y, put /c/pack 1 z, link /c/pack /a/pack|made made watched made made watched made watched made made made made second ;\
    make /a, make /a/pack, watch /a, make /b, make /b/pack, watch /b, put /t 1 x, link /b/pack/a.idx /t, put /a/pack/a.idx 1 z, put /t 1 y|made made watched made made watched made made made second ;\
    make /a, make /a/pack, watch /a, put /a/pack/a.idx 1 y, link /a/pack/b.idx /t, link /o/pack/c.idx /t, put /t 1 x, take /o/pack/c.idx, put /o/pack/c.idx 1 y|made made watched made made made made made second ;\
    make /a, make /a/pack, watch /a, link /a/pack/b.idx /o/pack/c.idx, put /o/pack/c.idx 1 x, take /a/pack/b.idx, put /a/pack/b.idx 1 y|made made watched made made made second ";

/// A link at the pack directory, or on the way to it, that is put over, moved away and back, or replaced.
const PACK_LINKS: &str = "\
    make /q, put /q/a.idx 1 x, make /r, put /r/a.idx 1 x, take /o/pack, link /o/pack /q, link /o/pack /r, put /q/a.idx 1 y, put /r/a.idx 1 y, link /o/pack /q|made made made made made made made made second second ;\
    make /q, put /q/a.idx 1 x, take /o/pack, link /o/pack /q, move /o/pack /o/old, move /o/old /o/pack, put /q/a.idx 1 y, move /o/pack /o/old, put /q/a.idx 1 y, move /o/old /o/pack|made made made made made made second made made second ;\
    make /q, put /q/a.idx 1 x, take /o/pack, link /o/pack /q, put /o/pack 1 z, put /q/a.idx 1 y, link /o/pack /q|made made made made made made second ;\
    make /q, put /q/a.idx 1 x, take /o/pack, link /o/pack /q, put /f 1 z, move /f /o/pack, put /q/a.idx 1 y, link /o/pack /q|made made made made made made made second ;\
    make /q, make /q/pack, put /q/pack/a.idx 1 x, link /m /q, link /p /m, watch /p, move /m /n, put /q/pack/a.idx 1 y, move /n /m|made made made made made watched made made second ;\
    make /q, make /q/pack, put /q/pack/a.idx 1 x, link /m /q, link /p /m, watch /p, put /m 1 z, put /q/pack/a.idx 1 y, link /m /q|made made made made made watched made made second ;\
    make /u, link /u/pack /o/pack, watch /u, make /q, put /q/a.idx 1 x, take /o/pack, link /o/pack /q, link /u/pack /r, make /r, put /r/a.idx 1 y|made made watched made made made made made made second ;\
    make /q, take /o/pack, link /o/pack /q, put /o/pack/a.idx 1 x, move /q /o/pack, put /q/a.idx 1 x, put /q/a.idx 1 y|made made made no no made second ";

/// Links whose targets lead through other links, through their own place, or in a loop.
const LOOPS: &str = "\
    make /o/x, put /o/x/a.idx 1 x, take /o/pack, link /l /o, link /o/pack /l/x, put /o/x/a.idx 1 y|made made made made made second ;\
    link /l /o/pack, take /o/pack, link /o/pack /l/x, make /q, make /q/x, put /q/x/a.idx 1 x, link /l /q, put /q/x/a.idx 1 y|made made made made made made made second ;\
    take /o/pack, link /o/pack /o/pack/q, make /q, put /q/a.idx 1 x, link /o/pack /q, put /q/a.idx 1 y|made made made made made second ;\
    make /q, put /q/a.idx 1 x, take /o/pack, link /o/pack /q, link /o/pack /o/pack/q, put /q/a.idx 1 y, link /o/pack /q|made made made made made made second ;\
    link /a /b, link /b /a, link /o/pack/a.idx /a, put /t 1 x, link /b /t, put /t 1 y|made made made made made second ;\
    link /p /r, link /r /p, watch /p, make /q, make /q/pack, put /q/pack/a.idx 1 x, link /r /q, put /q/pack/a.idx 1 y|made made watched made made made made second ;\
    put /o/pack/a.idx 1 x, link /l /o/pack/a.idx, move /l /o/pack/a.idx, put /o/pack/a.idx 1 y|made made made second ;\
    make /e, put /e/x 1 x, link /d /e, link /o/pack/a.idx /d/x, make /f, put /f/x 1 y, link /d /f|made made made made made made second ;\
    make /e, put /e/x 1 x, link /d /e, link /o/pack/a.idx /d/x, put /d 1 z, put /e/x 1 y, link /d /e|made made made made made made second ";

/// Directories that are moved to the pack directory's place or onto a link's way, and links that are moved over others.
const MOVED: &str = "\
    put /t 1 x, put /u 1 y, make /q, link /q/a.idx /l, link /l /t, take /o/pack, move /q /o/pack, link /l /u|made made made made made made made second ;\
    make /q, put /q/b 1 x, link /q/a.idx /o/pack/b, take /o/pack, move /q /o/pack, put /o/pack/b 1 y|made made made made made second ;\
    make /q, put /q/b 1 x, link /q/a.idx /q/b, take /o/pack, move /q /o/pack, make /q, put /q/b 1 x, put /q/b 1 y|made made made made made made made second ;\
    put /t 1 y, link /l /t, make /f, link /f/a /l, make /d, put /d/a 1 x, link /o/pack/a.idx /d/a, move /d /g, move /f /d|made made made made made made made made second ;\
    link /o/pack/a.idx /d/e/a, make /f, make /f/e, link /f/e/a /d/b, put /f/b 1 x, move /f /d, put /d/b 1 y|made made made made made made second ;\
    make /d, put /d/a 1 x, link /l /d, link /o/pack/a.idx /l/a, move /d /e, put /e/a 1 y, link /l /e|made made made made made made second ;\
    make /s, watch /s, make /d, link /d/pack /q, make /q, put /q/a.idx 1 x, take /s, move /d /s, put /q/a.idx 1 y|made watched made made made made made made second ;\
    put /t 1 x, put /u 1 y, put /v 1 x, link /o/pack/a.idx /t, link /o/pack/b.idx /u, link /o/pack/c.idx /v, move /o/pack/b.idx /o/pack/a.idx, move /o/pack/c.idx /o/pack/a.idx, put /t 1 y, put /v 1 y|made made made made made made second made made second ;\
    put /o/pack/a.idx 1 x, put /t 1 x, put /u 1 y, link /l /t, link /k /u, move /k /o/pack/a.idx, move /l /o/pack/a.idx, put /t 1 y|made made made made made second made second ;\
    put /t 1 x, link /o/pack/a.idx /t, move /o/pack/a.idx /o/pack/b.idx, put /t 1 y, move /o/pack/b.idx /o/pack/l, put /t 1 y, move /o/pack/l /o/pack/a.idx|made made made second made made second ;\
    put /t 1 x, link /o/pack/a.idx /t, move /o/pack/a.idx /o/pack/a.idx, put /t 1 y|made made made second ";

/// The multi-pack index behind such links.
const MULTI_LINKS: &str = "\
    make /q, put /q/multi-pack-index 1 x, make /r, put /r/multi-pack-index 2 y, make /w, put /w/multi-pack-index 1 y, take /o/pack, link /o/pack /q, link /o/pack /w, link /o/pack /r, time /r/multi-pack-index 1|made made made made made made made made second made second ;\
    put /t 1 x, link /m /t, link /o/pack/multi-pack-index /m, put /u 2 y, link /m /u, put /u 1 x, put /u 2 x|made made made made made made second ";

/// Links that are put and taken away at one place, which then changes.
const TAKEN_LINKS: &str = "\
    put /t 1 x, link /o/pack/a.idx /t, take /o/pack/a.idx, put /t 1 x, link /o/pack/a.idx /t, put /t 1 y|made made made made made second ;\
    put /t 1 x, link /o/pack/a.idx /t, link /o/pack/b.idx /t, take /o/pack/a.idx, put /t 1 x, put /t 1 y|made made made made made second ;\
    put /t 1 x, link /o/pack/a.idx /t, take /o/pack/a.idx, put /t 1 y, link /o/pack/b.idx /t, take /o/pack/b.idx, put /t 1 z, link /o/pack/b.idx /t|made made made made made made made second ;\
    put /t 1 x, link /m /t, link /o/pack/a.idx /m, take /m, put /t 1 x, link /m /t, put /t 1 y|made made made made made made second ;\
    put /t 1 x, link /m /t, link /o/pack/a.idx /m, move /m /n, put /t 1 x, move /n /m, put /t 1 y|made made made made made made second ;\
    put /t 1 x, link /m /t, link /o/pack/a.idx /m, link /o/pack/a.idx /t, put /m 1 x, link /o/pack/a.idx /m, put /m 1 y|made made made made made made second ;\
    make /q, put /t 1 x, link /q/a.idx /t, take /o/pack, link /o/pack /q, take /o/pack, put /t 1 x, link /o/pack /q, put /t 1 y|made made made made made made made made second ";

/// Behind a chain of so many links, which ends at `/0`: 40 links are followed on a way, and no further one.
const CHAINS: &str = "\
    39 put /0 1 x, link /o/pack/a.idx /39, put /0 1 y|made made second ;\
    40 put /0 1 x, link /o/pack/a.idx /40, put /0 1 y, link /o/pack/a.idx /39, put /0 1 x|made made made made second ;\
    39 put /0 1 x, link /o/pack/a.idx /38, put /z 1 y, link /0 /z|made made made second ;\
    39 put /0 1 x, link /o/pack/a.idx /39, put /z 1 y, link /0 /z, link /o/pack/a.idx /38|made made made made second ;\
    39 make /0, put /0/a.idx 1 x, take /o/pack, link /o/pack /39, put /0/a.idx 1 y|made made made made second ;\
    40 make /0, put /0/a.idx 1 x, take /o/pack, link /o/pack /40, put /0/a.idx 1 y, link /o/pack /39, put /0/a.idx 1 x|made made made made made made second ;\
    39 make /0, take /o/pack, link /o/pack /39, put /t 1 y, link /0/a.idx /t, put /t 1 z, link /o/pack /38, put /t 1 y|made made made made made made made second ";

fn check(rt: &HostRuntime, rows: &str) -> Result<(), Fail> {
    for row in rows.split(';') {
        check_behind(rt, "", "", row)?;
    }
    Ok(())
}

/// Checks a row after further steps, which give this.
fn check_behind(rt: &HostRuntime, first: &str, come: &str, row: &str) -> Result<(), Fail> {
    let alloc = rt.alloc();
    let (steps, want) = halves(row);
    let steps = format!(in alloc; "make /o, make /o/pack, watch /o, {first}{steps}")?;
    let want = format!(in alloc; "made made watched {come}{want}")?;
    let found = made_all(alloc, steps.as_str())?;
    compare(steps.as_str(), found.as_str(), want.as_str())
}

// Catches a second content that is let through or made up: by a time, a removal, a move, a link, or before a folder is watched.
#[test]
fn second_contents(rt: HostRuntime) -> Result<(), Fail> {
    for rows in [
        FOLDER,
        MULTI_INDEX,
        LINKS,
        LATER,
        NO_DIRECTORY,
        CHANGED,
        WAYS,
        LINKED_FILES,
        NEW_LINKS,
        FOLDERS,
        PACK_LINKS,
        LOOPS,
        MOVED,
        MULTI_LINKS,
        TAKEN_LINKS,
    ] {
        check(&rt, rows)?;
    }
    Ok(())
}

// Catches a way on which one link too few or too many is followed, before a change or after it.
#[test]
fn chains_of_links(rt: HostRuntime) -> Result<(), Fail> {
    for row in CHAINS.split(';') {
        let (count, row) = cut(row);
        let (links, come) = chain(rt.alloc(), count.parse::<u32>()?)?;
        check_behind(&rt, links.as_str(), come.as_str(), row)?;
    }
    Ok(())
}
