// What an install makes of a database and of a handheld, and what a backup reads. Each function here does nothing: its contract is the law.
ghost use Rattle.std.specs.Prelude.{◌≡◌, ◌<◌, ◌++◌, ℕ, List, [], Some, flat_map, take, true};
ghost use Rattle.pdb_values.specs.Databases.{DatabaseValue};
ghost use Rattle.pdb_values.specs.NamedDatabases.{NamesRise, database_of, with_new, with_put, without_named};
ghost use Rattle.pdb_values.specs.declared.resource.Resource.{Resource};
ghost use Rattle.pdb_values.specs.declared.user.Marks.{Marks};
ghost use Rattle.palm_device.specs.Blocks.{with_app, with_sort};
ghost use Rattle.palm_device.specs.Bounds.{IsBoundedDatabase};
ghost use Rattle.palm_device.specs.Devices.{Device};
ghost use Rattle.palm_device.specs.Handles.{Base};
ghost use Rattle.desktop_session.specs.Acts.{acted};
ghost use Rattle.desktop_session.specs.Orders.{AreInOrder, CanDelete};
ghost use Rattle.desktop_session.specs.Requests.{deleting, writing_app, writing_sort};
ghost use Rattle.desktop_session.specs.Tellings.{device_after};
ghost use Rattle.session_parts.specs.Rests.{IsAtRest};
ghost use Rattle.install_backup.specs.BackedUp.{HasNoneBusy, IsUnmarked, backed_up};
ghost use Rattle.install_backup.specs.BackupActs.{backup_acts, backup_of};
ghost use Rattle.install_backup.specs.BackupEnds.{backup_front, read_of};
ghost use Rattle.install_backup.specs.declared.mark.Mark.{Mark};
ghost use Rattle.install_backup.specs.declared.mark.Mark.TheVariants.{Unchanged};
ghost use Rattle.install_backup.specs.InstallActs.{install_acts, install_one, put_resource};
ghost use Rattle.install_backup.specs.InstallEnds.{HasRoomForAll};
ghost use Rattle.install_backup.specs.InstallFronts.{HasAsBefore, InstallFront, IsMarkedFirst, IsOther, IsReadNext, StandsInTurn};
ghost use Rattle.install_backup.specs.Installed.{installed, installed_behind, installed_on};
ghost use Rattle.install_backup.specs.Puts.{put_each};
ghost use Rattle.install_backup.specs.Rooms.{AreAllBounded, CanInstall, HasNoneOpen, has_room};
ghost use Rattle.install_backup.specs.Written.{HasPlaceFor, OpenToWrite, PutsDatabase, put_into};

/// Of resources that are put one after another, each in place of the first of its type and id, those are left that are installed.
pub fn resources_are_put_in_turn()
    ensures { (resources : List Resource) → put_each resources [] ≡ installed_behind [] resources }
{}

/// A database that may be taken away is gone then, where it was there, and all others stay.
pub fn databases_go()
    ensures { (device : Device) (name : List ℕ) → CanDelete device 0 name
        → (acted (deleting name) device).1
        ≡ record device { databases = without_named name device.databases } }
{}

/// Both blocks are written into an open database that may be written, and a resource into one of resources that has room for it.
pub fn what_is_written_is_there()
    ensures app { (device : Device) (handle : ℕ) (base : Base) (bytes : List ℕ)
        → OpenToWrite device handle base
        → PutsDatabase (writing_app handle bytes) device (with_app bytes base.database) }
    ensures sort { (device : Device) (handle : ℕ) (base : Base) (bytes : List ℕ)
        → OpenToWrite device handle base
        → PutsDatabase (writing_sort handle bytes) device (with_sort bytes base.database) }
    ensures resource { (device : Device) (handle : ℕ) (base : Base) (resource : Resource)
        → HasPlaceFor device handle base resource
        → PutsDatabase (put_resource handle resource) device (put_into resource base.database) }
{}

/// An installed database keeps the bounds of one, is installed as it is, and stands where a new one goes once the one of its name is gone.
pub fn installed_databases_are_databases()
    ensures bounded { (database : DatabaseValue) → IsBoundedDatabase database
        → IsBoundedDatabase (installed database) }
    ensures again { (database : DatabaseValue)
        → installed (installed database) ≡ installed database }
    ensures placed { (database : DatabaseValue) (databases : List DatabaseValue)
        → NamesRise databases
        → with_new database (without_named database.head.name databases)
        ≡ with_put database databases }
{}

/// On a handheld on which nothing is open, and which has room for it, a database that is not read-only is installed in place of the one of
/// its name, and all else stays: each request may be asked at its turn, and nothing is open then.
pub fn installs_arrive()
    ensures order { (device : Device) (database : DatabaseValue) → CanInstall device database
        → AreInOrder (install_one database 1 []) device }
    ensures device { (device : Device) (database : DatabaseValue) → CanInstall device database
        → device_after (install_one database 1 []) device ≡ installed_on database device }
    ensures rests { (device : Device) (database : DatabaseValue) → IsAtRest device
        → IsBoundedDatabase database → has_room database.head.name device.databases ≡ true
        → IsAtRest (installed_on database device) }
{}

/// What a backup reads of a handheld on which nothing is open is the handheld's database, without its seed, where no application is at work
/// on a record of it.
pub fn copies_are_the_devices()
    ensures { (device : Device) (database : DatabaseValue) → IsAtRest device
        → database_of database.head.name device.databases ≡ Some database
        → HasNoneBusy database → read_of device database ≡ backed_up database }
{}

/// A backup leaves a handheld on which nothing is open as it was, up to the request that ends the session.
pub fn backups_change_nothing()
    ensures { (device : Device) → IsAtRest device
        → device_after (backup_front device ++ flat_map backup_of device.databases) device ≡ device }
{}

/// Each request of a backup may be asked at its turn of a handheld on which nothing is open, and so it is answered.
pub fn backups_keep_their_order()
    ensures { (device : Device) (count : ℕ) → IsAtRest device
        → AreInOrder (take count (backup_acts device)) device }
{}

/// Each request of an install may be asked at its turn of a handheld on which nothing is open, and which has room for all of its databases.
pub fn installs_keep_their_order()
    ensures { (device : Device) (mark : Mark) (databases : List DatabaseValue) (count : ℕ)
        → IsAtRest device → AreAllBounded databases → HasRoomForAll databases device
        → AreInOrder (take count (install_acts mark device.user databases)) device }
{}

/// An unmarked database of a file comes back from a backup as it was, and so with its own canonical bytes: what is installed of it and backed up
/// is the file's, and so is what is read of a handheld on which nothing is open, which had room for it, once it was installed.
pub fn installs_come_back()
    ensures database { (database : DatabaseValue) → IsBoundedDatabase database → IsUnmarked database
        → backed_up (installed database) ≡ database }
    ensures handheld { (device : Device) (database : DatabaseValue) → CanInstall device database
        → IsUnmarked database
        → read_of (device_after (install_one database 1 []) device) (installed database)
        ≡ database }
{}

/// Wherever an install stops, a handheld on which nothing was open is as it was, or what it knows of its user has the mark; and each of its
/// databases whose name no file has that is installed is as it was, whether or not there was room.
pub fn others_stay()
    ensures user { (device after : Device) (mark : Mark) (databases : List DatabaseValue)
        → HasNoneOpen device → InstallFront device mark databases after
        → IsMarkedFirst mark device after }
    ensures others { (device after : Device) (mark : Mark) (databases : List DatabaseValue)
        (name : List ℕ) → HasNoneOpen device → InstallFront device mark databases after
        → IsOther name databases → HasAsBefore name device after }
{}

/// Wherever an install stops that says a mark, no desktop agrees with the handheld then, so that the next session reads everything, or the
/// handheld is as it was.
pub fn installs_are_read_next()
    ensures { (device after : Device) (mark : Mark) (databases : List DatabaseValue)
        (desktop : Marks) → HasNoneOpen device → InstallFront device mark databases after
        → ¬ (mark ≡ Unchanged) → 0 < desktop.pc → IsReadNext desktop device after }
{}

/// Wherever an install of several stops, on a handheld on which nothing was open, and which has room for all of them: those in front of one
/// are installed; the database of its name is as it was then, or gone, or made anew with a beginning of its blocks and entries; and each
/// database of another name is as it was then.
pub fn installs_come_in_turn()
    ensures { (device after : Device) (mark : Mark) (databases : List DatabaseValue)
        → IsAtRest device → HasRoomForAll databases device
        → InstallFront device mark databases after → StandsInTurn databases device after }
{}
