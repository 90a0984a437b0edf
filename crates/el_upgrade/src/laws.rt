//! Laws of the definitions: functions that do nothing, whose contracts are the laws.

ghost use Rattle.el_upgrade.specs.Laws.{UpgradeLacksImport, OthersStay, UpgradesOnce, UpgradeIsAccepted, UpgradeReadsBack, UpgradeMeansAlike};

/// An upgraded tree has no import, and a tree without one stays as it is; so a second upgrade changes nothing.
pub fn upgrade_replaces_import()
    ensures lacks { UpgradeLacksImport }
    ensures others { OthersStay }
    ensures once { UpgradesOnce }
{}

/// An upgraded tree is accepted under the same marks.
pub fn upgrade_is_accepted()
    ensures { UpgradeIsAccepted }
{}

/// The layout of an upgraded tree reads back as it, where it isn't too long, and it is spelled within the levels of the tree.
pub fn upgrade_reads_back()
    ensures { UpgradeReadsBack }
{}

/// An accepted tree and the upgraded one make events that are alike, one by one, and come to the same end in the same state.
pub fn upgrade_means_alike()
    ensures { UpgradeMeansAlike }
{}
