// What holds of strings behind their lengths, and of lists of files.
ghost use Rattle.std.specs.Prelude.{◌≡◌, ◌≢◌, ◌<◌, ◌^◌, ◌++◌, ℕ, List, All, Contains, IfSome, None, Some, length, true};
ghost use Rattle.std.specs.Str.{is_utf8};
ghost use Rattle.std.specs.FinMap as finmap;
ghost use Rattle.hs_folders.specs.declared.mem_folder.MemFolder.{MemFolder as Memory};
ghost use Rattle.hs_folders.specs.FileMaps.{FileMap};
ghost use Rattle.device_state.specs.Lists.{IsFileList, NamedFile, files_of, held_of, list_text};
ghost use Rattle.device_state.specs.Strings.{string_text};

use hs_folders::{Folder, MemFolder};

/// Where bytes begin with a string, that string and what stands behind it are known.
pub fn a_string_determines_its_end()
    ensures { (string other rest behind : List ℕ) → length string < 2 ^ 64 →
        length other < 2 ^ 64 → string_text string ++ rest ≡ string_text other ++ behind →
        (string ≡ other) × (rest ≡ behind) }
{}

/// Bytes are those of one list of files.
pub fn a_list_determines_its_files()
    ensures { (files others : List NamedFile) → length (list_text files) < 2 ^ 64 →
        list_text files ≡ list_text others → files ≡ others }
{}

/// A folder of listed files holds each of them, and nothing else.
pub fn a_list_says_what_is_held()
    ensures found { (files : List NamedFile) (file : NamedFile) → IsFileList files →
        Contains files file → finmap.get (held_of files) file.name ≡ Some file.bytes }
    ensures none { (files : List NamedFile) (name : List ℕ) → All (λ file. file.name ≢ name) files →
        finmap.get (held_of files) name ≡ None }
{}

/// The files of a folder whose names are text are a list, and a folder of these holds the same.
pub fn a_list_is_read_again()
    ensures form { (held : FileMap) → All (λ name. is_utf8 name ≡ true) (finmap.keys held) →
        IsFileList (files_of held) }
    ensures held { (held : FileMap) → held_of (files_of held) ≡ held }
{}

/// The files of each folder in memory are a list.
pub fn a_folder_in_memory_is_a_list()
    ensures { (folder : Memory) → IfSome (⟦<MemFolder as Folder>⟧.contents folder) (λ held.
        IsFileList (files_of held)) }
{}
