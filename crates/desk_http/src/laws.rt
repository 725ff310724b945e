//! The laws of requests, for all bytes and projects. Nothing here does work at run time.

ghost use Rattle.desk_http.specs.Repeating.{AddedIsToldAgain, AllChangeOnce, AsksOne, RepeatsChangeNothing};

/// Bytes ask for one thing. What is asked twice changes the projects once, while the project of its
/// name is as the first answer left it; and a PUT that added a project is answered 200 then.
pub fn law_repeated()
    ensures one { AsksOne }
    ensures asked { AllChangeOnce }
    ensures requests { RepeatsChangeNothing }
    ensures told { AddedIsToldAgain }
{}
