//! That no two things are said in the same words, and none in no words.
ghost use Rattle.std.specs.Prelude.{IsTrue, map};
ghost use Rattle.st80_objects.specs.Sentences.{are_apart};
ghost use Rattle.st80_explain.specs.Sentences.{all_causes, all_expected, all_kinds, all_roles, cause_meaning, cause_name, expected_text, kind_text, role_text};

/// Causes of `stuck`, by their names and by what they mean.
pub fn causes_are_apart()
    ensures names { IsTrue (are_apart (map cause_name all_causes)) }
    ensures meanings { IsTrue (are_apart (map cause_meaning all_causes)) }
{}

/// Kinds of files.
pub fn kinds_are_apart()
    ensures { IsTrue (are_apart (map kind_text all_kinds)) }
{}

/// What should have stood at a place of a text.
pub fn expectations_are_apart()
    ensures { IsTrue (are_apart (map expected_text all_expected)) }
{}

/// Roles of files.
pub fn roles_are_apart()
    ensures { IsTrue (are_apart (map role_text all_roles)) }
{}
